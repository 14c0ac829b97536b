ghost use Rattle.std.specs.Prelude.{◌≡◌, IsTrue, OnErr};
ghost use Rattle.pam_base.specs.Call.{is_fit};
ghost use Rattle.pam_library.specs.InPlace.{MayStep, StepsPlace};

use crate::calls::call_open;
use crate::end::end;
use crate::outcome::{Answer, Outcome};
use crate::reply::offer_closed;
use crate::session::{Session, StepTold};
use crate::slot::{Slot, Stepped};
use crate::start::start;
use crate::world::receipts_in;
use conv_port::Conv;
use pam_base::{AppCall, Step};
use pam_handle::pam_room::World;
use pam_handle::{Gear, StartCache};
use std::alloc::Global;

impl Slot {
    // A step in the slot of its number. What an open transaction had to report before is dropped.
    pub(crate) fn step(
        self,
        alloc: Global,
        gear: &Gear,
        world: &mut World,
        step: &Step,
        cache: &mut StartCache,
    ) -> Stepped
        requires may { let seen = ⟦<Session as StepTold>⟧.seen in
            MayStep step.now.number (seen gear.now self world.old) }
        requires fit { IsTrue (is_fit step.now.call) }
        ensures called { let seen = ⟦<Session as StepTold>⟧.seen in
            StepsPlace step.now.number step.now.call (seen gear.now self world.old) world.old
            result.outcome (seen gear.now result.slot world.new) world.new }
        ensures no_nap { OnErr result.outcome (world.new.nap ≡ world.old.nap) }
    {
        match self {
            Slot::Closed(conv) => step_closed(alloc, gear, world, conv, step, cache),
            Slot::Open(mut handle) => {
                let _before = handle.take_told(alloc);
                if let AppCall::End { status } = &step.call {
                    return end(alloc, gear, world, handle, *status);
                }
                let outcome = call_open(alloc, gear, world, &mut handle, &step.call);
                Stepped {
                    slot: Slot::Open(handle),
                    outcome,
                }
            }
        }
    }
}

// A step in a closed slot.
fn step_closed(
    alloc: Global,
    gear: &Gear,
    world: &mut World,
    conv: Box<dyn Conv>,
    step: &Step,
    cache: &mut StartCache,
) -> Stepped
    requires { IsTrue (is_fit step.now.call) }
    ensures called { let seen = ⟦<Session as StepTold>⟧.seen in
        StepsPlace step.now.number step.now.call (seen gear.now (Slot.Closed conv) world.old)
        world.old result.outcome (seen gear.now result.slot world.new) world.new }
    ensures no_nap { OnErr result.outcome (world.new.nap ≡ world.old.nap) }
{
    match &step.call {
        AppCall::Start { service, user } => {
            start(alloc, gear, world, step.number, service, user, conv, cache)
        }
        AppCall::Reply { text } => {
            let mut conv = conv;
            let outcome = offer_closed(alloc, &mut conv, receipts_in(world), text);
            Stepped {
                slot: Slot::Closed(conv),
                outcome,
            }
        }
        _ => Stepped {
            slot: Slot::Closed(conv),
            outcome: Ok(Outcome::only(alloc, receipts_in(world), Answer::NotOpen)),
        },
    }
}
