ghost use Rattle.std.specs.Prelude.{◌≡◌, false};
ghost use Rattle.pam_handle.specs.StackCalls.{credential_flags, flags_seen, has_pass_flag, is_refused_for_flags};

use pam_base::{ESTABLISH_CRED, Func, PRELIM_CHECK, UPDATE_AUTHTOK};

/// Whether the flags of a `pam_chauthtok(3)` hold one of those that the library itself adds.
pub fn has_pass_flag(flags: u32) -> bool
    ensures { result ≡ has_pass_flag flags }
{
    flags & PRELIM_CHECK > 0 || flags & UPDATE_AUTHTOK > 0
}

/// Whether a stack call is refused for its flags: a `pam_chauthtok(3)` with one of these.
pub(crate) fn is_refused(func: Func, flags: u32) -> bool
    ensures { result ≡ is_refused_for_flags func flags }
{
    func == Func::ChAuthTok && has_pass_flag(flags)
}

/// The flags that modules see in the first pass of a call.
pub(crate) fn first_flags(func: Func, flags: u32) -> u32
    ensures { result ≡ flags_seen func false flags }
{
    match func {
        Func::SetCred => credential_flags(flags),
        Func::ChAuthTok => flags | PRELIM_CHECK,
        Func::Authenticate | Func::AcctMgmt | Func::OpenSession | Func::CloseSession => flags,
    }
}

// The flags of a `pam_setcred(3)` that modules see: 0 means PAM_ESTABLISH_CRED.
fn credential_flags(flags: u32) -> u32
    ensures { result ≡ credential_flags flags }
{
    if flags == 0 { ESTABLISH_CRED } else { flags }
}
