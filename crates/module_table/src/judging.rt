ghost use Rattle.std.specs.Prelude.{◌≡◌};
ghost use Rattle.module_table.specs.Judging.{counts, judging_of, judging_word};

use pam_base::{Word, find_word};

/// What a module's SUCCESS says of the user.
#[derive(Clone, Copy, Debug, PartialEq, Eq)]
pub enum Judging {
    /// The user has shown who they are: by a password, a key, a token.
    Asks,
    /// Who the user is was found without asking: by the caller's user ID, the host, a list.
    Judges,
    /// A condition is met, which says nothing on who the user is.
    Tests,
    /// Nothing: the module refuses nobody.
    Passes,
}

/// All of them, in the order in which they are written here.
pub const ALL_JUDGINGS: [Judging; 4] = [
    Judging::Asks,
    Judging::Judges,
    Judging::Tests,
    Judging::Passes,
];

impl Word for Judging {
    ghost spelling = { judging_word };

    fn word(self) -> &'static str {
        match self {
            Judging::Asks => "asks",
            Judging::Judges => "judges",
            Judging::Tests => "tests",
            Judging::Passes => "passes",
        }
    }
}

impl Judging {
    /// Whether its SUCCESS counts as a yes.
    pub fn counts(self) -> bool
        ensures { result ≡ counts self }
    {
        match self {
            Judging::Asks | Judging::Judges => true,
            Judging::Tests | Judging::Passes => false,
        }
    }

    pub(crate) fn named(word: &[u8]) -> Option<Judging>
        ensures { result ≡ judging_of word.now }
    {
        find_word(&ALL_JUDGINGS, word)
    }
}
