ghost use Rattle.std.specs.Prelude.{◌≡◌, ◌≤◌, List, None, Option};
ghost use Rattle.control_words.specs.Stack.{lines_in, stack_of};
ghost use Rattle.dispatch_core.specs.Calls as calls;
ghost use Rattle.dispatch_core.specs.Calls.{first_kept, first_stack, following, held_past, kind_of, stack_type};
ghost use Rattle.dispatch_core.specs.service_load.specs.Load.{AreBounded};
ghost use Rattle.handler_chain.specs.Retell.{Telling};
ghost use Rattle.pass_replay.specs.Held.{held_of, pending_of};
ghost use Rattle.pass_replay.specs.Kept.{kept_answers};
ghost use Rattle.pass_replay.specs.Retold.{held_after, stacks_in};

use crate::answers::Answers;
use crate::held::{Held, Pending};
use control_words::Nodes;
use dispatch_core::service_load::{RuleType, Trees};
use handler_chain::PassKind;
use pam_base::Func;

/// The type of the stack that a call runs.
pub fn stack_type(func: Func) -> RuleType
    ensures { result ≡ stack_type func }
{
    match func {
        Func::Authenticate | Func::SetCred => RuleType::Auth,
        Func::AcctMgmt => RuleType::Account,
        Func::OpenSession | Func::CloseSession => RuleType::Session,
        Func::ChAuthTok => RuleType::Password,
    }
}

/// The stack that a call runs.
pub(crate) fn stack_for(func: Func, trees: &Trees) -> &Nodes
    requires bounded { AreBounded trees.now }
    ensures stack { stack_of result.now.vec.items ≡ first_stack func (stacks_in trees.now) }
    ensures few { lines_in (stack_of result.now.vec.items) ≤ 4096 }
{
    trees.of(stack_type(func))
}

/// The kind of a call's first pass: setcred and close_session use cached codes, if any are held.
pub fn kind_of(func: Func, kept: &Option<Answers>) -> PassKind
    ensures { result ≡ kind_of func (kept_answers kept.now) }
{
    match func {
        Func::SetCred | Func::CloseSession => following(kept),
        Func::Authenticate | Func::AcctMgmt | Func::OpenSession | Func::ChAuthTok => {
            PassKind::Keep
        }
    }
}

// A pass by cached codes, if any are held.
fn following(kept: &Option<Answers>) -> PassKind
    ensures { result ≡ following (kept_answers kept.now) }
{
    match kept {
        Some(_) => PassKind::Follow,
        None => PassKind::Loose,
    }
}

/// Takes out what is cached for a call: the calls of the auth stack share it, and so do those of
/// the session stack.
pub(crate) fn take_cached(func: Func, held: &mut Held) -> Option<Answers>
    ensures taken { kept_answers result ≡ first_kept func (held_of held.old) }
    ensures rest { (p : calls.Passed Telling) →
        held_past func None p (held_of held.new) ≡ held_past func None p (held_of held.old) }
{
    match stack_type(func) {
        RuleType::Auth => held.authenticated.take(),
        RuleType::Session => held.opened.take(),
        RuleType::Account | RuleType::Password => None,
    }
}

/// What is held with these codes in its place, and with this pending call.
pub(crate) fn held_after(
    func: Func,
    kept: Option<Answers>,
    pending: Option<Pending>,
    held: Held,
) -> Held
    ensures { held_of result ≡ held_after func (kept_answers kept) (pending_of pending)
        (held_of held) }
{
    match stack_type(func) {
        RuleType::Auth => Held {
            authenticated: kept,
            pending,
            ..held
        },
        RuleType::Session => Held {
            opened: kept,
            pending,
            ..held
        },
        RuleType::Account | RuleType::Password => Held { pending, ..held },
    }
}
