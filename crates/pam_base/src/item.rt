ghost use Rattle.std.specs.Prelude.{◌≡◌};
ghost use Rattle.pam_base.specs.Item.{item_number, item_word, item_of_word};

use crate::word::{Word, find_word};

/// The items of a transaction, by their numbers in `pam_set_item(3)`.
#[derive(Clone, Copy, Debug, PartialEq, Eq)]
pub enum ItemName {
    /// PAM_SERVICE (1): the name of the service.
    Service = 1,
    /// PAM_USER (2): the user's name.
    User = 2,
    /// PAM_TTY (3): the terminal.
    Tty = 3,
    /// PAM_RHOST (4): the host that the user comes from.
    Rhost = 4,
    /// PAM_CONV (5): the conversation; not a text.
    Conv = 5,
    /// PAM_AUTHTOK (6): the password; for modules alone.
    AuthTok = 6,
    /// PAM_OLDAUTHTOK (7): the old password; for modules alone.
    OldAuthTok = 7,
    /// PAM_RUSER (8): the user on the remote host.
    Ruser = 8,
    /// PAM_USER_PROMPT (9): the prompt for the user's name.
    UserPrompt = 9,
    /// PAM_FAIL_DELAY (10): the application's delay function; not a text.
    FailDelay = 10,
    /// PAM_XDISPLAY (11).
    XDisplay = 11,
    /// PAM_XAUTHDATA (12); not a text.
    XAuthData = 12,
    /// PAM_AUTHTOK_TYPE (13): a word in the prompts for a new password.
    AuthTokType = 13,
}

/// All items, in the order of their numbers.
pub const ALL_ITEMS: [ItemName; 13] = [
    ItemName::Service,
    ItemName::User,
    ItemName::Tty,
    ItemName::Rhost,
    ItemName::Conv,
    ItemName::AuthTok,
    ItemName::OldAuthTok,
    ItemName::Ruser,
    ItemName::UserPrompt,
    ItemName::FailDelay,
    ItemName::XDisplay,
    ItemName::XAuthData,
    ItemName::AuthTokType,
];

impl ItemName {
    /// The number, from 1 to 13.
    pub fn number(self) -> u32
        ensures { result ≡ item_number self }
    {
        self as u32
    }
}

impl Word for ItemName {
    ghost spelling = { item_word };

    /// The word that a script has for the item: its name without `PAM_`, in lower case.
    fn word(self) -> &'static str {
        match self {
            ItemName::Service => "service",
            ItemName::User => "user",
            ItemName::Tty => "tty",
            ItemName::Rhost => "rhost",
            ItemName::Conv => "conv",
            ItemName::AuthTok => "authtok",
            ItemName::OldAuthTok => "oldauthtok",
            ItemName::Ruser => "ruser",
            ItemName::UserPrompt => "user_prompt",
            ItemName::FailDelay => "fail_delay",
            ItemName::XDisplay => "xdisplay",
            ItemName::XAuthData => "xauthdata",
            ItemName::AuthTokType => "authtok_type",
        }
    }
}

/// The item that a script's word names, in lower case. None for any other word.
pub fn item_named(word: &[u8]) -> Option<ItemName>
    ensures { result ≡ item_of_word word.now }
{
    find_word(&ALL_ITEMS, word)
}
