/// Whether the lines so far grant or deny (libpam: `impression`, _PAM_UNDEF, _PAM_POSITIVE,
/// _PAM_NEGATIVE).
#[derive(Clone, Copy, Debug, PartialEq, Eq)]
pub enum Impression {
    Undefined,
    Positive,
    Negative,
}
