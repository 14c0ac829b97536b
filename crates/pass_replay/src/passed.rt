use crate::answers::Answers;
use pam_base::{Code, Sequence};

/// The result of a replayed pass.
#[derive(Debug, Drop)]
pub struct Passed {
    pub code: Code,
    /// What is cached after it: its own codes, what was cached before, or nothing.
    pub kept: Option<Answers>,
    /// The codes to resume with, if it is incomplete.
    pub paused: Option<Sequence<Code>>,
    /// The recorded lines before this one were taken.
    pub next: usize,
    /// Whether a line was run that isn't the next recorded one.
    pub astray: bool,
}
