ghost use Rattle.std.specs.Prelude.{◌≡◌, IsTrue};
ghost use Rattle.pam_base.specs.ServiceName.{is_service_name};
ghost use Rattle.pam_handle.specs.Plain.{plain_handle, room_in};
ghost use Rattle.pam_library.specs.InPlace.{HasNoData, IsOpened, IsReadyIn, IsRefused, StepsPlace};
ghost use Rattle.pam_library.specs.Slots.{closed};

use crate::outcome::{Answer, Outcome};
use crate::session::{Session, StepTold};
use crate::slot::{Slot, SlotTold, Stepped};
use crate::texts::bytes_of;
use crate::world::receipts_in;
use conv_port::Conv;
use pam_base::{AppCall, Code, NoMemory, Refuse, Text};
use pam_handle::pam_room::{Room, RoomTold, World};
use pam_handle::{Gear, Handle, StartCache, StartRefused};
use std::alloc::Global;

// Opens a slot for a transaction that was started, and reports the missing modules; if memory runs out for their names,
// the transaction, which has no module data yet, is ended again.
fn open(alloc: Global, gear: &Gear, world: &mut World, handle: Handle, filed_from: u64) -> Stepped
    requires ready { let seen = ⟦<Session as StepTold>⟧.seen in
        IsReadyIn (seen gear.now (Slot.Open handle) world.old) }
    requires no_data { HasNoData (plain_handle ⟦<Room as RoomTold>⟧.plain handle) }
    ensures tells { ⟦<Slot as SlotTold>⟧.tells result.slot
        ≡ ⟦<Room as RoomTold>⟧.tells (room_in handle) }
    ensures opened { IsOpened filed_from (plain_handle ⟦<Room as RoomTold>⟧.plain handle)
        result.outcome (⟦<Slot as SlotTold>⟧.plain result.slot) }
    ensures world { world.new ≡ world.old }
{
    match handle.missing(alloc) {
        Ok(missing) => Stepped {
            slot: Slot::Open(handle),
            outcome: Ok(Outcome::missing(alloc, filed_from, missing)),
        },
        Err(NoMemory) => Stepped {
            slot: Slot::Closed(handle.end(gear, world, 0)),
            outcome: Err(NoMemory),
        },
    }
}

// A refused start leaves its slot closed with its conversation.
fn refuse(alloc: Global, refused: StartRefused, filed_from: u64) -> Stepped
    ensures tells { ⟦<Slot as SlotTold>⟧.tells result.slot ≡ conv_tells refused.conv }
    ensures slot { ⟦<Slot as SlotTold>⟧.plain result.slot ≡ closed (conv_holds refused.conv) }
    ensures outcome { IsRefused filed_from refused.why result.outcome }
{
    let StartRefused { conv, why } = refused;
    let outcome = match why {
        Refuse::Named(fault) => Ok(Outcome::only(alloc, filed_from, Answer::Refused(fault))),
        Refuse::NoMemory => Err(NoMemory),
    };
    Stepped {
        slot: Slot::Closed(conv),
        outcome,
    }
}

// Starts a transaction in a closed slot.
pub(crate) fn start(
    alloc: Global,
    gear: &Gear,
    world: &mut World,
    number: u32,
    service: &Text,
    user: &Option<Text>,
    conv: Box<dyn Conv>,
    cache: &mut StartCache,
) -> Stepped
    requires { IsTrue (is_service_name service.now) }
    ensures called { let seen = ⟦<Session as StepTold>⟧.seen in
        StepsPlace number (AppCall.Start service.now user.now)
        (seen gear.now (Slot.Closed conv) world.old) world.old
        result.outcome (seen gear.now result.slot world.new) world.new }
    ensures no_nap { world.new.nap ≡ world.old.nap }
{
    let filed_from = receipts_in(world);
    match Handle::start(
        alloc,
        gear,
        world,
        number,
        service.bytes(),
        bytes_of(user),
        conv,
        cache,
    ) {
        Ok(handle) => open(alloc, gear, world, handle, filed_from),
        Err(refused) => refuse(alloc, refused, filed_from),
    }
}
