use crate::opener::Opener;
use crate::rule_type::RuleType;

/// The position of a load.
#[derive(Clone, Copy)]
pub(crate) struct Position<'a> {
    /// The directory that stands in for `/`.
    pub(crate) root: &'a [u8],
    /// The type whose stack is made.
    pub(crate) rule_type: RuleType,
    /// How many files include this one: 0 for the file of a service.
    pub(crate) level: u32,
    /// Why the file is opened.
    pub(crate) opener: Opener<'a>,
}
