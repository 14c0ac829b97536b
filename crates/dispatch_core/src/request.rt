use handler_chain::PassKind;
use pam_base::Func;

/// What a pass is for: the function that its modules serve, with the flags of the application's
/// call, and whether its return codes are cached, or cached ones are used (libpam:
/// `_PAM_PLEASE_FREEZE`, `_PAM_MUST_BE_FROZEN`).
#[derive(Clone, Copy)]
pub struct PassRequest {
    pub func: Func,
    pub flags: u32,
    pub kind: PassKind,
}
