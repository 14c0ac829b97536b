use pam_base::{Code, Text};

/// A line of a stack that was run, as it is recorded: its rule number, its module's name, its
/// return code.
#[derive(Debug, Drop)]
pub struct RecordedLine {
    pub place: u64,
    pub name: Text,
    pub answer: Code,
}
