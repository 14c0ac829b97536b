ghost use Rattle.std.specs.Prelude.{◌≡◌};
ghost use Rattle.pam_base.specs.Call.{call_word, func_word, name_of_call, stack_call};

use crate::item::ItemName;
use crate::text::Text;
use crate::word::Word;

/// The longest text of a message or of a reply, in bytes (PAM_MAX_MSG_SIZE and PAM_MAX_RESP_SIZE).
pub const MAX_TEXT: usize = 512;

/// The function of a module that a stack call runs: one of the six `pam_sm_*` functions of `pam(3)`.
#[derive(Clone, Copy, Debug, PartialEq, Eq)]
pub enum Func {
    /// `pam_sm_authenticate(3)`, run by `pam_authenticate(3)`.
    Authenticate,
    /// `pam_sm_setcred(3)`, run by `pam_setcred(3)`.
    SetCred,
    /// `pam_sm_acct_mgmt(3)`, run by `pam_acct_mgmt(3)`.
    AcctMgmt,
    /// `pam_sm_open_session(3)`, run by `pam_open_session(3)`.
    OpenSession,
    /// `pam_sm_close_session(3)`, run by `pam_close_session(3)`.
    CloseSession,
    /// `pam_sm_chauthtok(3)`, run twice by `pam_chauthtok(3)`.
    ChAuthTok,
}

/// All functions of modules.
pub const ALL_FUNCS: [Func; 6] = [
    Func::Authenticate,
    Func::SetCred,
    Func::AcctMgmt,
    Func::OpenSession,
    Func::CloseSession,
    Func::ChAuthTok,
];

/// The calls of an application, without their arguments.
#[derive(Clone, Copy, Debug, PartialEq, Eq)]
pub enum CallName {
    Start,
    End,
    /// A stack call, which runs this function of the modules.
    Run(Func),
    SetItem,
    GetItem,
    PutEnv,
    GetEnv,
    EnvList,
    FailDelay,
    DelayFn,
    Reply,
}

/// All calls.
pub const ALL_CALLS: [CallName; 16] = [
    CallName::Start,
    CallName::End,
    CallName::Run(Func::Authenticate),
    CallName::Run(Func::SetCred),
    CallName::Run(Func::AcctMgmt),
    CallName::Run(Func::OpenSession),
    CallName::Run(Func::CloseSession),
    CallName::Run(Func::ChAuthTok),
    CallName::SetItem,
    CallName::GetItem,
    CallName::PutEnv,
    CallName::GetEnv,
    CallName::EnvList,
    CallName::FailDelay,
    CallName::DelayFn,
    CallName::Reply,
];

/// A call of an application on one transaction, with its arguments (`pam(3)`).
#[derive(Debug, Drop)]
pub enum AppCall {
    /// `pam_start(3)`: a service and, if it is known, a user.
    Start { service: Text, user: Option<Text> },
    /// `pam_end(3)`, with the status that is passed to the cleanup functions of module data.
    End { status: u32 },
    /// `pam_authenticate(3)`, with flags, as the next five.
    Authenticate { flags: u32 },
    /// `pam_setcred(3)`.
    SetCred { flags: u32 },
    /// `pam_acct_mgmt(3)`.
    AcctMgmt { flags: u32 },
    /// `pam_open_session(3)`.
    OpenSession { flags: u32 },
    /// `pam_close_session(3)`.
    CloseSession { flags: u32 },
    /// `pam_chauthtok(3)`.
    ChAuthTok { flags: u32 },
    /// `pam_set_item(3)`; no value unsets the item.
    SetItem { item: ItemName, value: Option<Text> },
    /// `pam_get_item(3)`.
    GetItem { item: ItemName },
    /// `pam_putenv(3)`: `NAME=VALUE`, `NAME=` or, to delete, `NAME`.
    PutEnv { text: Text },
    /// `pam_getenv(3)`.
    GetEnv { name: Text },
    /// `pam_getenvlist(3)`.
    EnvList,
    /// `pam_fail_delay(3)`, in microseconds.
    FailDelay { micros: u32 },
    /// Switches the application's own delay function (PAM_FAIL_DELAY) on or off.
    DelayFn { on: bool },
    /// Stores a reply that the conversation gives to a later prompt.
    Reply { text: Text },
}

/// One call on the transaction with this number.
#[derive(Debug, Drop)]
pub struct Step {
    pub number: u32,
    pub call: AppCall,
}

impl Word for Func {
    ghost spelling = { func_word };

    /// The word that scripts and reports use for the stack call that runs it.
    fn word(self) -> &'static str {
        match self {
            Func::Authenticate => "authenticate",
            Func::SetCred => "setcred",
            Func::AcctMgmt => "acct_mgmt",
            Func::OpenSession => "open_session",
            Func::CloseSession => "close_session",
            Func::ChAuthTok => "chauthtok",
        }
    }
}

impl Word for CallName {
    ghost spelling = { call_word };

    /// The word that scripts and reports use for the call.
    fn word(self) -> &'static str {
        match self {
            CallName::Start => "start",
            CallName::End => "end",
            CallName::Run(func) => func.word(),
            CallName::SetItem => "set_item",
            CallName::GetItem => "get_item",
            CallName::PutEnv => "putenv",
            CallName::GetEnv => "getenv",
            CallName::EnvList => "envlist",
            CallName::FailDelay => "fail_delay",
            CallName::DelayFn => "delay",
            CallName::Reply => "reply",
        }
    }
}

impl AppCall {
    /// The stack call that runs this function of the modules, with these flags.
    pub fn stack(func: Func, flags: u32) -> AppCall
        ensures { result ≡ stack_call func flags }
    {
        match func {
            Func::Authenticate => AppCall::Authenticate { flags },
            Func::SetCred => AppCall::SetCred { flags },
            Func::AcctMgmt => AppCall::AcctMgmt { flags },
            Func::OpenSession => AppCall::OpenSession { flags },
            Func::CloseSession => AppCall::CloseSession { flags },
            Func::ChAuthTok => AppCall::ChAuthTok { flags },
        }
    }

    /// The call without its arguments.
    pub fn name(&self) -> CallName
        ensures { result ≡ name_of_call self.now }
    {
        match self {
            AppCall::Start { .. } => CallName::Start,
            AppCall::End { .. } => CallName::End,
            AppCall::Authenticate { .. } => CallName::Run(Func::Authenticate),
            AppCall::SetCred { .. } => CallName::Run(Func::SetCred),
            AppCall::AcctMgmt { .. } => CallName::Run(Func::AcctMgmt),
            AppCall::OpenSession { .. } => CallName::Run(Func::OpenSession),
            AppCall::CloseSession { .. } => CallName::Run(Func::CloseSession),
            AppCall::ChAuthTok { .. } => CallName::Run(Func::ChAuthTok),
            AppCall::SetItem { .. } => CallName::SetItem,
            AppCall::GetItem { .. } => CallName::GetItem,
            AppCall::PutEnv { .. } => CallName::PutEnv,
            AppCall::GetEnv { .. } => CallName::GetEnv,
            AppCall::EnvList => CallName::EnvList,
            AppCall::FailDelay { .. } => CallName::FailDelay,
            AppCall::DelayFn { .. } => CallName::DelayFn,
            AppCall::Reply { .. } => CallName::Reply,
        }
    }
}
