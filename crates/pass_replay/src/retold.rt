use crate::held::Held;
use pam_base::Code;

/// The result of a replayed stack call.
#[derive(Debug, Drop)]
pub struct Retold {
    pub code: Code,
    /// What the transaction holds after it.
    pub held: Held,
    /// The index of the first recorded line that it didn't take; the number of recorded lines if it
    /// took all.
    pub next: usize,
    /// Whether a line was run that isn't the next recorded one.
    pub astray: bool,
}
