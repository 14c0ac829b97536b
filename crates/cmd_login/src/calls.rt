ghost use Rattle.std.specs.Prelude.{◌≡◌};
ghost use Rattle.cmd_login.specs.Calls.{accepts, call_of, code_in, is_due, login_calls};

use cmd_run::pam_library::Answer;
use pam_base::{AppCall, CHANGE_EXPIRED_AUTHTOK, Code, DELETE_CRED, ESTABLISH_CRED, Func};

/// When a login makes a call.
#[derive(Clone, Copy, Debug, PartialEq, Eq)]
pub(crate) enum When {
    Always,
    /// Only if the call before it returned NEW_AUTHTOK_REQD.
    TokenIsTooOld,
}

impl When {
    /// Whether it is made after a call with this code.
    pub(crate) fn is_due(self, last: Code) -> bool
        ensures { result ≡ is_due self last }
    {
        match self {
            When::Always => true,
            When::TokenIsTooOld => matches!(last, Code::NewAuthtokReqd),
        }
    }
}

/// The codes after which a login goes on.
#[derive(Clone, Copy, Debug, PartialEq, Eq)]
pub(crate) enum Accepted {
    Success,
    /// SUCCESS, or NEW_AUTHTOK_REQD.
    SuccessOrTooOld,
    Any,
}

impl Accepted {
    pub(crate) fn accepts(self, code: Code) -> bool
        ensures { result ≡ accepts self code }
    {
        match self {
            Accepted::Success => matches!(code, Code::Success),
            Accepted::SuccessOrTooOld => matches!(code, Code::Success | Code::NewAuthtokReqd),
            Accepted::Any => true,
        }
    }
}

/// The place of `pam_start(3)`; the time of day is asked by a call's place.
pub(crate) const FIRST_PLACE: u32 = 0;

/// The place of `pam_end(3)`.
pub(crate) const LAST_PLACE: u32 = 8;

/// A call of a login: its place, the function that it calls in the modules, its flags, when it is made, and the codes
/// after which the login goes on.
#[derive(Clone, Copy, Debug)]
pub(crate) struct LoginCall {
    pub(crate) place: u32,
    pub(crate) func: Func,
    pub(crate) flags: u32,
    pub(crate) when: When,
    pub(crate) accepted: Accepted,
}

impl LoginCall {
    pub(crate) fn call(self) -> AppCall
        ensures { result ≡ call_of self }
    {
        AppCall::stack(self.func, self.flags)
    }
}

/// The calls between `pam_start(3)` and `pam_end(3)`, in order.
pub(crate) const LOGIN_CALLS: [LoginCall; 7] = [
    LoginCall {
        place: 1,
        func: Func::Authenticate,
        flags: 0,
        when: When::Always,
        accepted: Accepted::Success,
    },
    LoginCall {
        place: 2,
        func: Func::AcctMgmt,
        flags: 0,
        when: When::Always,
        accepted: Accepted::SuccessOrTooOld,
    },
    LoginCall {
        place: 3,
        func: Func::ChAuthTok,
        flags: CHANGE_EXPIRED_AUTHTOK,
        when: When::TokenIsTooOld,
        accepted: Accepted::Success,
    },
    LoginCall {
        place: 4,
        func: Func::SetCred,
        flags: ESTABLISH_CRED,
        when: When::Always,
        accepted: Accepted::Success,
    },
    LoginCall {
        place: 5,
        func: Func::OpenSession,
        flags: 0,
        when: When::Always,
        accepted: Accepted::Success,
    },
    LoginCall {
        place: 6,
        func: Func::CloseSession,
        flags: 0,
        when: When::Always,
        accepted: Accepted::Any,
    },
    LoginCall {
        place: 7,
        func: Func::SetCred,
        flags: DELETE_CRED,
        when: When::Always,
        accepted: Accepted::Any,
    },
];

/// The code of a result; a result that isn't a code counts as ABORT.
pub(crate) fn code_in(answer: &Answer) -> Code
    ensures { result ≡ code_in answer.now }
{
    match answer {
        Answer::Code(code) => *code,
        _ => Code::Abort,
    }
}
