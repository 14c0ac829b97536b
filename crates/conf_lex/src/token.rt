use pam_base::{FaultKind, Sequence, Text};

/// A token of a rule.
#[derive(Debug, Drop)]
pub struct Token {
    /// Whether it was written in brackets.
    pub bracketed: bool,
    /// Its bytes; for a bracketed token those between the brackets, with `]` for `\]` and a space
    /// for a join.
    pub text: Text,
}

/// The tokens of a rule, in order.
pub type Tokens = Sequence<Token>;

/// A rule of a text: the tokens of a line and of the lines joined to it. It has at least one token.
#[derive(Debug, Drop)]
pub struct RawRule {
    /// The number of its first physical line, from 1.
    pub line: u32,
    pub tokens: Tokens,
}

/// The rules of a text, in order.
pub type RawRules = Sequence<RawRule>;

/// A fault of a text, and where it is.
#[derive(Clone, Copy, Debug, PartialEq, Eq)]
pub struct LexFault {
    /// The number of a physical line, from 1, or 0 if the fault concerns the whole text.
    pub line: u32,
    pub kind: FaultKind,
}
