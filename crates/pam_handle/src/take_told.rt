ghost use Rattle.std.specs.Prelude.{◌≡◌};
ghost use Rattle.pam_handle.specs.Items.{all_told};
ghost use Rattle.pam_handle.specs.Plain.{Keeps, plain_handle, room_in};

use crate::handle::Handle;
use crate::wait::Wait;
use dispatch_core::conv_port::Messages;
use dispatch_core::pam_room::{Room, RoomTold, Visits};
use std::alloc::Global;
use std::mem;

/// What a transaction has to report: the messages passed to the conversation, the lines that were run, both in order,
/// and the last wait.
#[derive(Debug, Drop)]
pub struct Told {
    pub said: Messages,
    pub trail: Visits,
    pub wait: Option<Wait>,
}

impl Handle {
    /// The messages, the lines run and the last wait since it was last called. Only this call empties them. Allocates
    /// nothing.
    pub fn take_told(&mut self, alloc: Global) -> Told
        ensures tells { Keeps ⟦<Room as RoomTold>⟧.tells (room_in self.old) (room_in self.new) }
        ensures said { result.said ≡ (plain_handle
            ⟦<Room as RoomTold>⟧.plain self.old).room.transaction.said }
        ensures trail { result.trail.visits ≡ (plain_handle
            ⟦<Room as RoomTold>⟧.plain self.old).room.transaction.trail }
        ensures wait { result.wait ≡ (plain_handle ⟦<Room as RoomTold>⟧.plain self.old).waited }
        ensures emptied { let plain = plain_handle ⟦<Room as RoomTold>⟧.plain in
            plain self.new ≡ all_told (plain self.old) }
    {
        let transaction = &mut self.room.transaction;
        let said = mem::replace(&mut transaction.said, Messages::new(alloc));
        let trail = mem::replace(&mut transaction.trail, Visits::new(alloc));
        let wait = self.waited.take();
        Told { said, trail, wait }
    }
}
