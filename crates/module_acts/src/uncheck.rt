ghost use Rattle.std.specs.Prelude.{◌≡◌};
ghost use Rattle.module_acts.specs.Uncheck.{code_unchecked};

use pam_base::{Code, Func};

/// The code of a call in which a module that only checks the user checks nothing, given that of
/// setcred; None for authenticate and acct_mgmt.
pub fn code_unchecked(func: Func, setcred: Code) -> Option<Code>
    ensures { result ≡ code_unchecked func setcred }
{
    match func {
        Func::Authenticate | Func::AcctMgmt => None,
        Func::SetCred => Some(setcred),
        Func::OpenSession | Func::CloseSession | Func::ChAuthTok => Some(Code::ModuleUnknown),
    }
}
