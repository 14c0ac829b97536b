use pam_base::Code;

/// The line with this rule number was run in a pass, and returned this code.
#[derive(Clone, Copy, Debug)]
pub struct Visited {
    /// Its rule number in the stack, from 1.
    pub place: usize,
    pub answer: Code,
}
