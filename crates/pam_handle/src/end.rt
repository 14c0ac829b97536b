ghost use Rattle.std.specs.Prelude.{◌≡◌};
ghost use Rattle.dispatch_core.specs.pam_room.specs.Module.{notes_of};
ghost use Rattle.pam_handle.specs.Around.{IsReady};
ghost use Rattle.pam_handle.specs.End.{process_after_end, world_after_end};
ghost use Rattle.pam_handle.specs.Plain.{Keeps, room_in};

use crate::around::{CallTold, Calls};
use crate::gear::Gear;
use crate::handle::Handle;
use dispatch_core::conv_port::Conv;
use dispatch_core::pam_room::{World, WorldTold, end_room};

impl Handle {
    /// Ends the transaction (`pam_end(3)`), even if a call is pending: the owners clean up its
    /// module data with this status, as it is given, the last name first, and each cleanup is
    /// logged. The conversation is returned. Allocates nothing.
    pub fn end(self, gear: &Gear, world: &mut World, status: u32) -> Box<dyn Conv>
        requires { IsReady (⟦<Calls as CallTold>⟧.seen gear.now self world.old) }
        ensures conv { result ≡ (room_in self).conv }
        ensures tells { Keeps ⟦<World as WorldTold>⟧.tells world.old world.new }
        ensures world { let seen = ⟦<Calls as CallTold>⟧.seen gear.now self world.old in
            ⟦<World as WorldTold>⟧.plain world.new
            ≡ world_after_end (notes_of seen.players) status seen.handle seen.world }
        ensures others { let seen = ⟦<Calls as CallTold>⟧.seen gear.now self world.old in
            world.new ≡ record world.old {
              process = record world.old.process {
                ledger = (process_after_end (notes_of seen.players) status seen.handle
                    seen.world.process).ledger;
              };
            } }
    {
        let Handle {
            room,
            chains: _,
            authenticated: _,
            opened: _,
            delay_on: _,
            pending: _,
            waited: _,
        } = self;
        end_room(&gear.mods, room, &mut world.process, status)
    }
}
