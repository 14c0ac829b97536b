ghost use Rattle.std.specs.Prelude.{◌≡◌, OnOk, OnErr};
ghost use Rattle.cmd_generate.specs.Generated.{from_root};

use cmd_run::pam_room::{World, WorldTold};
use pam_base::{NoMemory, Text};
use std::alloc::Global;

/// The user ID of the process that the transaction is in: nobody.
const NOBODY: u32 = 65534;

/// Sets the root `/` and the user ID of nobody. If an allocation fails, the world stays as it was.
pub(crate) fn set_process(alloc: Global, world: &mut World) -> Result<(), NoMemory>
    ensures tells { let told = ⟦<World as WorldTold>⟧ in told.tells world.new ≡ told.tells world.old }
    ensures ok { let plain = ⟦<World as WorldTold>⟧.plain in
        OnOk result (plain world.new ≡ from_root (plain world.old)) }
    ensures err { OnErr result (world.new ≡ world.old) }
    ensures ledger { world.new.process.ledger ≡ world.old.process.ledger }
{
    let root = Text::from_bytes(alloc, b"/")?;
    world.process.root = root;
    world.process.caller = NOBODY;
    Ok(())
}
