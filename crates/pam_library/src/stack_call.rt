ghost use Rattle.std.specs.Prelude.{◌≡◌};
ghost use Rattle.pam_handle.specs.Plain.{plain_handle};
ghost use Rattle.pam_library.specs.AnyWorld.{stack_refusal};
ghost use Rattle.pam_library.specs.StackOf.{stack_of};

use crate::outcome::Answer;
use pam_base::{AppCall, Code, Func};
use pam_handle::pam_room::{Room, RoomTold};
use pam_handle::{Handle, has_pass_flag};

/// The function and the flags of a call that runs a stack; None for any other call.
pub(crate) fn stack_call_in(call: &AppCall) -> Option<(Func, u32)>
    ensures { result ≡ stack_of call.now }
{
    match call {
        AppCall::Authenticate { flags } => Some((Func::Authenticate, *flags)),
        AppCall::SetCred { flags } => Some((Func::SetCred, *flags)),
        AppCall::AcctMgmt { flags } => Some((Func::AcctMgmt, *flags)),
        AppCall::OpenSession { flags } => Some((Func::OpenSession, *flags)),
        AppCall::CloseSession { flags } => Some((Func::CloseSession, *flags)),
        AppCall::ChAuthTok { flags } => Some((Func::ChAuthTok, *flags)),
        _ => None,
    }
}

/// What a stack call returns before a stack is run: SYSTEM_ERR for the flags of the two passes of a change of token, and
/// then the pending call, if it is another one.
pub(crate) fn refusal(handle: &Handle, func: Func, flags: u32) -> Option<Answer>
    ensures { result ≡ stack_refusal (plain_handle ⟦<Room as RoomTold>⟧.plain handle.now).pending
        func flags }
{
    if func == Func::ChAuthTok && has_pass_flag(flags) {
        return Some(Answer::Code(Code::SystemErr));
    }
    match handle.pending() {
        Some(pending) if pending != func => Some(Answer::Pending(pending)),
        _ => None,
    }
}
