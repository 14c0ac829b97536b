use pam_base::{Sequence, Text};
use service_load::ByType;

/// Where a rule is written.
#[derive(Debug, Drop)]
pub struct Origin {
    /// The file's name, without the root.
    pub file: Text,
    /// The number of the rule's first physical line, from 1.
    pub line: u32,
}

/// Where the rules of a stack are written, in their order.
pub type Origins = Sequence<Origin>;

/// Where the rules of a service's stacks are written.
pub type Sources = ByType<Origins>;
