ghost use Rattle.std.specs.Prelude.{◌≡◌, ◌≢◌, ◌↔◌, Err, map, IfOk, OnOk, OnErr, IsTrue};
ghost use Rattle.std.specs.Option.{option_copied};
ghost use Rattle.dispatch_core.specs.env_list.specs.Environment.{after_put, is_deletion, is_refused, value_of, variable_text};
ghost use Rattle.pam_base.specs.Fault.{bad_item};
ghost use Rattle.pam_handle.specs.Items.{with_environment};
ghost use Rattle.pam_handle.specs.Plain.{Keeps, plain_handle, room_in};

use crate::handle::Handle;
use dispatch_core::pam_room::{Room, RoomTold};
use pam_base::{BadItem, NoMemory, Refuse, Texts};
use std::alloc::Global;

impl Handle {
    /// `pam_putenv(3)`: `NAME=VALUE` sets a variable, `NAME=` sets it to the empty text, and `NAME`
    /// alone deletes it. BadItem exactly if the name is empty or an unset variable is deleted. A
    /// deletion allocates nothing. If the call is refused or runs out of memory, nothing changes.
    pub fn putenv(&mut self, text: &[u8]) -> Result<(), Refuse<BadItem>>
        ensures tells { Keeps ⟦<Room as RoomTold>⟧.tells (room_in self.old) (room_in self.new) }
        ensures ok { let plain = plain_handle ⟦<Room as RoomTold>⟧.plain in
            OnOk result (plain self.new ≡ with_environment
            (after_put text.now (plain self.old).room.transaction.env) (plain self.old)) }
        ensures err { OnErr result (self.new ≡ self.old) }
        ensures bad_item { (result ≡ Err (Refuse.Named bad_item)) ↔ IsTrue
            (is_refused text.now
            (plain_handle ⟦<Room as RoomTold>⟧.plain self.old).room.transaction.env) }
        ensures deletion { IsTrue (is_deletion text.now) → result ≢ Err Refuse.NoMemory }
    {
        self.room.transaction.env.put(text)
    }

    /// The value of a name; None if it isn't set (`pam_getenv(3)`).
    pub fn getenv(&self, name: &[u8]) -> Option<&[u8]>
        ensures { option_copied result ≡ value_of name.now
            (plain_handle ⟦<Room as RoomTold>⟧.plain self.now).room.transaction.env }
    {
        self.room.transaction.env.get(name)
    }

    /// A copy of all variables, `NAME=VALUE` each, in the order in which they were first set (`pam_getenvlist(3)`).
    pub fn getenvlist(&self, alloc: Global) -> Result<Texts, NoMemory>
        ensures { IfOk result (λ texts. texts
            ≡ map variable_text
            (plain_handle ⟦<Room as RoomTold>⟧.plain self.now).room.transaction.env) }
    {
        self.room.transaction.env.list(alloc)
    }
}
