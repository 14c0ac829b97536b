ghost use Rattle.pam_library.specs.InPlace.{CallsOpen, IsReadyIn};

use crate::outcome::{Answer, Outcome};
use crate::session::{Session, StepTold};
use crate::slot::{Slot, Stepped};
use crate::world::receipts_in;
use pam_base::{AppCall, Code};
use pam_handle::pam_room::World;
use pam_handle::{Gear, Handle};
use std::alloc::Global;

// Ends a transaction; its conversation stays in its slot. Allocates nothing.
pub(crate) fn end(
    alloc: Global,
    gear: &Gear,
    world: &mut World,
    handle: Handle,
    status: u32,
) -> Stepped
    requires { let seen = ⟦<Session as StepTold>⟧.seen in
        IsReadyIn (seen gear.now (Slot.Open handle) world.old) }
    ensures { let seen = ⟦<Session as StepTold>⟧.seen in
        CallsOpen (AppCall.End status) (seen gear.now (Slot.Open handle) world.old) world.old
        result.outcome (seen gear.now result.slot world.new) world.new }
{
    let filed_from = receipts_in(world);
    let conv = handle.end(gear, world, status);
    Stepped {
        slot: Slot::Closed(conv),
        outcome: Ok(Outcome::only(alloc, filed_from, Answer::Code(Code::Success))),
    }
}
