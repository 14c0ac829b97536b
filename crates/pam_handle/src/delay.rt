ghost use Rattle.std.specs.Prelude.{◌≡◌};
ghost use Rattle.pam_handle.specs.Items.{with_delay_function, with_request};
ghost use Rattle.pam_handle.specs.Plain.{Keeps, plain_handle, room_in};

use crate::handle::Handle;
use dispatch_core::pam_room::{Room, RoomTold};

impl Handle {
    /// `pam_fail_delay(3)`: requests a delay, in microseconds. The longest request since the last
    /// stack call that ended counts; more than 60 seconds count as 60 seconds.
    pub fn fail_delay(&mut self, micros: u32)
        ensures tells { Keeps ⟦<Room as RoomTold>⟧.tells (room_in self.old) (room_in self.new) }
        ensures request { let plain = plain_handle ⟦<Room as RoomTold>⟧.plain in
            plain self.new ≡ with_request micros (plain self.old) }
    {
        self.room.transaction.delay.request(micros);
    }

    /// Switches the application's delay function on or off (PAM_FAIL_DELAY of `pam_fail_delay(3)`).
    /// It is off at the start.
    pub fn set_delay(&mut self, on: bool)
        ensures tells { Keeps ⟦<Room as RoomTold>⟧.tells (room_in self.old) (room_in self.new) }
        ensures on { let plain = plain_handle ⟦<Room as RoomTold>⟧.plain in
            plain self.new ≡ with_delay_function on (plain self.old) }
    {
        self.delay_on = on;
    }
}
