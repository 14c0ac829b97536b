ghost use Rattle.std.specs.Prelude.{◌≡◌};
ghost use Rattle.pam_library.specs.SlotStep.{filed_in};

use pam_handle::pam_room::{World, WorldTold};

// The number of cleanup records in the log.
pub(crate) fn receipts_in(world: &World) -> u64
    ensures { result ≡ filed_in (⟦<World as WorldTold>⟧.plain world.now) }
{
    world.process.ledger.filed().len() as u64
}
