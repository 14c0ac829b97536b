ghost use Rattle.std.specs.Prelude.{◌≡◌, ◌↔◌, map, IsNone};
ghost use Rattle.pam_library.specs.Applied.{ClosesIn, Keeps};
ghost use Rattle.pam_library.specs.Closing.{IsFirstOpen, end_of, first_open};
ghost use Rattle.pam_library.specs.Seen.{IsSoundIn, NoneIsOpenIn};

use crate::laws;
use crate::library::Library;
use crate::place::put_back;
use crate::session::{Session, Told};
use crate::slot::{Slot, SlotTold};
use pam_handle::pam_room::World;

// The slot of the first open transaction, from 0.
fn place_of_first_open(slots: &[Slot]) -> Option<usize>
    ensures { IsFirstOpen result (first_open 1 (map ⟦<Slot as SlotTold>⟧.plain slots.now)) }
{
    for (i, slot) in slots.iter().enumerate() {
        if slot.is_open() {
            return Some(i);
        }
    }
    None
}

impl Library {
    ghost use Rattle.pam_library.specs.Plain.{gear_in};

    /// Ends the open transaction with the lowest number with this status (`pam_end(3)`), and
    /// returns its number; its conversation stays in its slot. Returns None exactly if none is
    /// open, and then nothing changes. Allocates nothing.
    ///
    /// As with `apply`, the sets in the world's cleanup log without a cleanup record are exactly
    /// the module data of the open transactions.
    pub fn close_one(&mut self, world: &mut World, status: u32) -> Option<u32>
        requires { IsSoundIn (⟦<Session as Told>⟧.seen self.old world.old) }
        ensures gear { gear_in self.new ≡ gear_in self.old }
        ensures keeps { let seen = ⟦<Session as Told>⟧.seen in Keeps (end_of status result)
            (seen self.old world.old) (seen self.new world.new) }
        ensures closes { let seen = ⟦<Session as Told>⟧.seen in ClosesIn status result
            (seen self.old world.old) (seen self.new world.new) }
        ensures none { IsNone result ↔ NoneIsOpenIn (⟦<Session as Told>⟧.seen self.old world.old) }
        ensures others { world.new ≡ record world.old { process = world.new.process } }
    {
        laws::one_place_moves();
        data_cleanup::due_laws::nothing_moves();
        data_cleanup::due_laws::held_data_await_cleanup();
        let place = place_of_first_open(&self.slots)?;
        match self.slots.swap_remove(place) {
            Slot::Open(handle) => {
                let conv = handle.end(&self.gear, world, status);
                put_back(&mut self.slots, place, Slot::Closed(conv));
                data_cleanup::laws::ledger_is_sound(&world.process.ledger);
                Some(place as u32 + 1)
            }
            Slot::Closed(_conv) => unreachable!(),
        }
    }
}
