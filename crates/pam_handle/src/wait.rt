use pam_base::Code;

/// A wait after an authentication (`pam_fail_delay(3)`): the code that was returned, the requested delay, and the time
/// waited, both in microseconds.
#[derive(Clone, Copy, Debug, PartialEq, Eq)]
pub struct Wait {
    pub code: Code,
    pub asked: u32,
    pub wait: u32,
}
