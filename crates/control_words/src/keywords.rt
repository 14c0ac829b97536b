ghost use Rattle.std.specs.Prelude.{◌≡◌, option_map};
ghost use Rattle.control_words.specs.Keyword.{control_of_word, keyword_control, keyword_of_word, keyword_word};

use crate::control::{Action, Control};
use pam_base::{Word, find_any_case};

/// A keyword for a control (`pam.conf(5)`).
#[derive(Clone, Copy, Debug, PartialEq, Eq)]
pub enum Keyword {
    Required,
    Requisite,
    Sufficient,
    Optional,
}

/// All keywords.
pub const ALL_KEYWORDS: [Keyword; 4] = [
    Keyword::Required,
    Keyword::Requisite,
    Keyword::Sufficient,
    Keyword::Optional,
];

impl Word for Keyword {
    ghost spelling = { keyword_word };

    /// The word, in lower case.
    fn word(self) -> &'static str {
        match self {
            Keyword::Required => "required",
            Keyword::Requisite => "requisite",
            Keyword::Sufficient => "sufficient",
            Keyword::Optional => "optional",
        }
    }
}

impl Keyword {
    /// The control that it is short for.
    pub fn control(self) -> Control
        ensures { result ≡ keyword_control self }
    {
        match self {
            Keyword::Required => Control::usual(Action::Ok, Action::Ignore, Action::Bad),
            Keyword::Requisite => Control::usual(Action::Ok, Action::Ignore, Action::Die),
            Keyword::Sufficient => Control::usual(Action::Done, Action::Ignore, Action::Ignore),
            Keyword::Optional => Control::usual(Action::Ok, Action::Ignore, Action::Ignore),
        }
    }
}

/// The control that a keyword names, in any case (`pam.conf(5)`); None if and only if the word
/// isn't a keyword.
pub fn control_named(word: &[u8]) -> Option<Control>
    ensures { result ≡ control_of_word word.now }
{
    match keyword_named(word) {
        Some(keyword) => Some(keyword.control()),
        None => None,
    }
}

fn keyword_named(word: &[u8]) -> Option<Keyword>
    ensures { result ≡ keyword_of_word word.now }
{
    find_any_case(&ALL_KEYWORDS, word)
}
