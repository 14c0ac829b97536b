ghost use Rattle.std.specs.Prelude.{◌≡◌, length};
ghost use Rattle.dispatch_core.specs.AnyWorld.{PassStays};
ghost use Rattle.dispatch_core.specs.AnswersSoFar.{past_of};
ghost use Rattle.dispatch_core.specs.Calls.{following};
ghost use Rattle.pam_handle.specs.AnyWorld.{BeginsUnset};
ghost use Rattle.pam_handle.specs.Around.{IsReady};
ghost use Rattle.pam_handle.specs.Handle.{in_room};
ghost use Rattle.pam_handle.specs.Pass.{kept_answers};
ghost use Rattle.pam_handle.specs.Passes.{PassGives, kind_of, stack_type};
ghost use Rattle.pam_handle.specs.Plain.{plain_handle, room_in};

use crate::around::{CallTold, Calls};
use crate::gear::{Gear, GearTold};
use crate::handle::Handle;
use dispatch_core::handler_chain::PassKind;
use dispatch_core::pam_room::{Room, RoomTold, World};
use dispatch_core::service_load::RuleType;
use dispatch_core::{Pass, PassRequest, PassTold, Paused, dispatch};
use frozen_chain::Kept;
use pam_base::{Code, Func, NoMemory};
use std::alloc::Global;

impl Handle {
    /// One pass of a stack call over its stack, with the cached return codes that belong to the
    /// call and, if the pass is resumed, with the codes it has so far. If it is the first pass of a
    /// call that clears the tokens, and isn't resumed, none is set when its first line is run.
    pub(crate) fn pass(
        &mut self,
        alloc: Global,
        gear: &Gear,
        world: &mut World,
        request: PassRequest,
        kept: &mut Kept,
        paused: &mut Paused,
    ) -> Result<Code, NoMemory>
        requires unset { request.kind ≡ PassKind.Keep →
            BeginsUnset request.func paused.old self.old.room.transaction.items }
        requires ready { IsReady (⟦<Calls as CallTold>⟧.seen gear.now self.old world.old) }
        ensures stays { let players = ⟦<Gear as GearTold>⟧.players gear.now in
            PassStays (length players) (⟦<Pass as PassTold>⟧.around players (room_in self.old)
            (room_in self.new) world.old world.new) }
        ensures gives { PassGives request kept.old kept.new (past_of paused.old) paused.new result
            (⟦<Calls as CallTold>⟧.around gear.now self.old self.new world.old world.new) }
        ensures others { let a = ⟦<Calls as CallTold>⟧.around gear.now self.old self.new world.old world.new in
            a.new.handle ≡ in_room a.new.handle.room a.old.handle }
    {
        let chain = self.chains.by_type.of_mut(stack_type(request.func));
        let room = &mut self.room;
        dispatch(alloc, chain, &gear.mods, request, kept, paused, room, world)
    }
}

// The type of the stack that a call runs.
fn stack_type(func: Func) -> RuleType
    ensures { result ≡ stack_type func }
{
    match func {
        Func::Authenticate | Func::SetCred => RuleType::Auth,
        Func::AcctMgmt => RuleType::Account,
        Func::OpenSession | Func::CloseSession => RuleType::Session,
        Func::ChAuthTok => RuleType::Password,
    }
}

/// Whether the first pass of a call caches its codes, or uses cached ones, if there are any.
pub(crate) fn kind_of(func: Func, cached: &Kept) -> PassKind
    ensures { result ≡ kind_of func (kept_answers cached.now) }
{
    match func {
        Func::SetCred | Func::CloseSession => following(cached),
        Func::Authenticate | Func::AcctMgmt | Func::OpenSession | Func::ChAuthTok => PassKind::Keep,
    }
}

fn following(cached: &Kept) -> PassKind
    ensures { result ≡ following (kept_answers cached.now) }
{
    if cached.held() {
        PassKind::Follow
    } else {
        PassKind::Loose
    }
}
