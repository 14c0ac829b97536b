ghost use Rattle.std.specs.Prelude.{◌≡◌, ℕ, true, IfOk, IsOk, OnErr, IsTrue};
ghost use Rattle.pam_base.specs.declared.code.Code.{Code};
ghost use Rattle.pam_base.specs.Call.{is_fit};
ghost use Rattle.pam_library.specs.AnyWorld.{leaves_world, stays_inside, takes_no_memory};
ghost use Rattle.pam_library.specs.Applied.{Answers, Keeps, LeavesIn, RunsOut, StepsIn, ended_by};
ghost use Rattle.pam_library.specs.Seen.{AllTell, IsSoundIn, slot_of};

use crate::laws;
use crate::library::Library;
use crate::outcome::{Answer, Outcome};
use crate::place::put_back;
use crate::session::{Session, Told};
use crate::slot::Stepped;
use crate::world::receipts_in;
use pam_base::{NoMemory, Step};
use pam_handle::pam_room::World;
use std::alloc::Global;

impl Library {
    ghost use Rattle.pam_library.specs.Plain.{gear_in};

    /// One call of an application on the transaction with this number (the Application Developers'
    /// Guide). What that transaction had to report before is dropped, so the messages, lines run
    /// and wait of the outcome are those of this step.
    ///
    /// First the number and the slot are checked, in this order: a number that isn't 1 to 16 is a
    /// bad number; a start needs a closed slot, and any other call except a reply an open one. Then
    /// a change of token with one of the library's own flags returns SYSTEM_ERR, and a stack call
    /// is refused while another one is pending. In all these cases nothing changes and nothing is
    /// allocated. An end, a requested delay, and switching the delay function on or off don't
    /// allocate either.
    ///
    /// A start names a service, and is refused exactly if its configuration is; a reply has at most
    /// 512 bytes. If memory runs out, a start leaves its slot closed with its conversation, a stack
    /// call leaves nothing pending, no requested delay and no cached codes of its own, and any
    /// other call leaves the transaction and the world as they were. Then nothing was waited, and a
    /// start had no failed file access.
    ///
    /// The sets in the world's cleanup log without a cleanup record are exactly the module data of
    /// the open transactions, before and after.
    pub fn apply(
        &mut self,
        alloc: Global,
        world: &mut World,
        step: &Step,
    ) -> Result<Outcome, NoMemory>
        requires sound { IsSoundIn (⟦<Session as Told>⟧.seen self.old world.old) }
        requires fit { IsTrue (is_fit step.now.call) }

        // With real objects, with every result, and out of memory too.
        ensures gear { gear_in self.new ≡ gear_in self.old }
        ensures keeps { let seen = ⟦<Session as Told>⟧.seen in
            Keeps (ended_by step.now (seen self.old world.old)) (seen self.old world.old)
            (seen self.new world.new) }
        ensures leaves { let seen = ⟦<Session as Told>⟧.seen in
            LeavesIn step.now (seen self.old world.old) (seen self.new world.new) }
        ensures world { leaves_world
            (slot_of step.now (⟦<Session as Told>⟧.seen self.old world.old)) step.now.call ≡ true →
            world.new ≡ world.old }

        // The outcome, with real objects too: by number, slot and pending call, else one of those
        // that the call can have.
        ensures answers { let seen = ⟦<Session as Told>⟧.seen in IfOk result (λ outcome.
            Answers step.now (seen self.old world.old) (seen self.new world.new) outcome) }

        // The result of a step: if it uses nothing outside, with real objects too; else if
        // everything that it uses is modelled.
        ensures inside { let seen = ⟦<Session as Told>⟧.seen in (delay : Code → ℕ → ℕ) →
            stays_inside (slot_of step.now (seen self.old world.old)) step.now.call ≡ true →
            IfOk result (λ outcome. StepsIn delay step.now (seen self.old world.old)
            (seen self.new world.new) outcome) }
        ensures told { let seen = ⟦<Session as Told>⟧.seen in (delay : Code → ℕ → ℕ) →
            (seen self.old world.old).gives delay → AllTell (seen self.old world.old) →
            IfOk result (λ outcome. StepsIn delay step.now (seen self.old world.old)
            (seen self.new world.new) outcome) }

        // Out of memory.
        ensures succeeds { takes_no_memory
            (slot_of step.now (⟦<Session as Told>⟧.seen self.old world.old)) step.now.call ≡ true →
            IsOk result }
        ensures fails { let seen = ⟦<Session as Told>⟧.seen in OnErr result (RunsOut step.now
            (seen self.old world.old) (seen self.new world.new) world.old.nap world.new.nap) }
    {
        laws::one_place_moves();
        data_cleanup::due_laws::nothing_moves();
        data_cleanup::due_laws::held_data_await_cleanup();
        let number = step.number as usize;
        if number == 0 || self.slots.len() < number {
            let filed_from = receipts_in(world);
            return Ok(Outcome::only(alloc, filed_from, Answer::BadNumber));
        }
        let slot = self.slots.swap_remove(number - 1);
        let Stepped { slot, outcome } = slot.step(alloc, &self.gear, world, step, &mut self.cache);
        put_back(&mut self.slots, number - 1, slot);
        data_cleanup::laws::ledger_is_sound(&world.process.ledger);
        outcome
    }
}
