ghost use Rattle.std.specs.Prelude.{◌≡◌};
ghost use Rattle.service_load.specs.RuleType.{type_of_word, type_word};

use pam_base::{Word, find_any_case};

/// The type of a rule (`pam.conf(5)`; libpam: PAM_T_AUTH, PAM_T_ACCT, PAM_T_PASS, PAM_T_SESS):
/// which calls of an application it is for.
#[derive(Clone, Copy, Debug, PartialEq, Eq)]
pub enum RuleType {
    Auth,
    Account,
    Password,
    Session,
}

/// All types, in the order in which their stacks are made.
pub const ALL_TYPES: [RuleType; 4] = [
    RuleType::Auth,
    RuleType::Account,
    RuleType::Password,
    RuleType::Session,
];

impl Word for RuleType {
    ghost spelling = { type_word };

    /// Its word, in lower case.
    fn word(self) -> &'static str {
        match self {
            RuleType::Auth => "auth",
            RuleType::Account => "account",
            RuleType::Password => "password",
            RuleType::Session => "session",
        }
    }
}

impl RuleType {
    /// The type that a word names, in any case; None if and only if it names none.
    pub fn named(word: &[u8]) -> Option<RuleType>
        ensures { result ≡ type_of_word word.now }
    {
        find_any_case(&ALL_TYPES, word)
    }
}
