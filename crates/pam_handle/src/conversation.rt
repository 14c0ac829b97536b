ghost use Rattle.std.specs.Prelude.{◌≡◌, ◌≤◌, IsTrue, length};
ghost use Rattle.dispatch_core.specs.conv_port.specs.Conv.{TakesOffer};
ghost use Rattle.pam_handle.specs.Items.{with_conversation};
ghost use Rattle.pam_handle.specs.Plain.{Keeps, in_box, plain_handle, room_in};

use crate::handle::Handle;
use dispatch_core::conv_port::{Conv, offer_to};
use dispatch_core::pam_room::{Room, RoomTold};
use pam_base::{MAX_TEXT, NoMemory};
use std::alloc::Global;
use std::mem;

impl Handle {
    /// Sets the conversation (PAM_CONV of `pam_set_item(3)`), and returns the old one.
    pub fn set_conv(&mut self, conv: Box<dyn Conv>) -> Box<dyn Conv>
        ensures old { result ≡ (room_in self.old).conv }
        ensures conv { (room_in self.new).conv ≡ conv }
        ensures plain { let plain = plain_handle ⟦<Room as RoomTold>⟧.plain in
            plain self.new ≡ with_conversation (conv_holds conv) (plain self.old) }
    {
        mem::replace(&mut self.room.conv, conv)
    }

    /// Offers the conversation a reply of at most 512 bytes for a later prompt, as `Conv::offer`
    /// does. If memory runs out, a modelled conversation holds what it held before.
    pub fn offer(&mut self, alloc: Global, text: &[u8]) -> Result<(), NoMemory>
        requires { length text.now ≤ MAX_TEXT }
        ensures tells { Keeps ⟦<Room as RoomTold>⟧.tells (room_in self.old) (room_in self.new) }
        ensures told { let seen = ⟦<Room as RoomTold>⟧ in
            IsTrue (seen.tells (room_in self.old)) →
            TakesOffer result text.now (seen.plain (room_in self.old)).conv
            (seen.plain (room_in self.new)).conv }
        ensures others { let plain = plain_handle ⟦<Room as RoomTold>⟧.plain in
            plain self.new ≡ with_conversation (plain self.new).room.conv (plain self.old) }
        ensures faults { conv_faults (in_box (room_in self.new).conv)
            ≡ conv_faults (in_box (room_in self.old).conv) }
        ensures deferrals { conv_deferrals (in_box (room_in self.new).conv)
            ≡ conv_deferrals (in_box (room_in self.old).conv) }
    {
        offer_to(&mut *self.room.conv, alloc, text)
    }
}
