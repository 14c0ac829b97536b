ghost use Rattle.std.specs.Prelude.{◌≡◌, false, IsTrue, OnErr};
ghost use Rattle.pam_base.specs.Call.{is_fit};
ghost use Rattle.pam_handle.specs.Plain.{plain_handle};
ghost use Rattle.pam_library.specs.InPlace.{CallsOpen, IsReadyIn, IsToldAll, is_end};

use crate::outcome::{Answer, Outcome};
use crate::reply::offer_open;
use crate::session::{Session, StepTold};
use crate::slot::Slot;
use crate::stack_call::{refusal, stack_call_in};
use crate::values::{get_env, get_item, list_env, put_env, set_item};
use crate::world::receipts_in;
use data_cleanup::laws;
use pam_base::{AppCall, Code, NoMemory};
use pam_handle::pam_room::{Room, RoomTold, World};
use pam_handle::{Gear, Handle};
use std::alloc::Global;

// Any call except the end, on a transaction without anything to report.
pub(crate) fn call_open(
    alloc: Global,
    gear: &Gear,
    world: &mut World,
    handle: &mut Handle,
    call: &AppCall,
) -> Result<Outcome, NoMemory>
    requires told { IsToldAll (plain_handle ⟦<Room as RoomTold>⟧.plain handle.old) }
    requires ready { let seen = ⟦<Session as StepTold>⟧.seen in
        IsReadyIn (seen gear.now (Slot.Open handle.old) world.old) }
    requires fit { IsTrue (is_fit call.now) }
    requires goes_on { is_end call.now ≡ false }
    ensures called { let seen = ⟦<Session as StepTold>⟧.seen in
        CallsOpen call.now (seen gear.now (Slot.Open handle.old) world.old) world.old result
        (seen gear.now (Slot.Open handle.new) world.new) world.new }
    ensures no_nap { OnErr result (world.new.nap ≡ world.old.nap) }
{
    laws::nothing_grows();
    let filed = receipts_in(world);
    if let Some((func, flags)) = stack_call_in(call) {
        if let Some(refused) = refusal(handle, func, flags) {
            return Ok(Outcome::only(alloc, filed, refused));
        }
        let code = handle.call(alloc, gear, world, func, flags)?;
        let told = handle.take_told(alloc);
        return Ok(Outcome::telling(alloc, filed, told, Answer::Code(code)));
    }
    match call {
        AppCall::Start { .. } => Ok(Outcome::only(alloc, filed, Answer::AlreadyOpen)),
        AppCall::SetItem { item, value } => set_item(alloc, handle, filed, *item, value),
        AppCall::GetItem { item } => get_item(alloc, handle, filed, *item),
        AppCall::PutEnv { text } => put_env(alloc, handle, filed, text),
        AppCall::GetEnv { name } => get_env(alloc, handle, filed, name),
        AppCall::EnvList => list_env(alloc, handle, filed),
        AppCall::FailDelay { micros } => {
            handle.fail_delay(*micros);
            Ok(Outcome::code(alloc, filed, Code::Success))
        }
        AppCall::DelayFn { on } => {
            handle.set_delay(*on);
            Ok(Outcome::code(alloc, filed, Code::Success))
        }
        AppCall::Reply { text } => offer_open(alloc, handle, filed, text),
        // The end, which isn't asked for here, and the stack calls.
        _ => unreachable!(),
    }
}
