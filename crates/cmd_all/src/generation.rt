ghost use Rattle.std.specs.Prelude.{◌≡◌, length};
ghost use Rattle.pam_room.specs.Module.{notes_of};
ghost use Rattle.cmd_all.specs.ByCommand.{GeneratesSo, IsReady, WriteCauses, object_of};
ghost use Rattle.cmd_all.specs.CleanedUp.{EndsGenerate, IsCleanedUp};
ghost use Rattle.cmd_all.specs.Exit.{exit_status};

use crate::desk::{Desk, DeskTold};
use crate::exit::{Exit, generate_exit};
use crate::opening::library_of;
use crate::operand::GenerateArgs;
use crate::outside::{Outside, OutsideTold};
use cmd_generate::generate;
use fail_delay::DelayRule;
use pam_base::NoMemory;
use pam_outside::Sink;
use pam_room::World;
use std::alloc::Global;

/// Generates a service, and authenticates with it. Returns how that ended.
pub(crate) fn generate_lines<K: Sink>(
    alloc: Global,
    generate_args: GenerateArgs,
    out: &mut K,
    world: &mut World,
    desk: Desk,
) -> Exit
    requires { IsReady (length desk.convs.items) (length desk.mods.items)
        (DelayRule.pre desk.delay) (DelayRule.post desk.delay) world.old.process.ledger }
    ensures generate { GeneratesSo generate_args.seed generate_args.lines (exit_status result)
        (⟦<Desk as DeskTold>⟧.given desk)
        (⟦<Outside as OutsideTold>⟧.around world.old world.new)
        (object_of K.sink_tells K.sink_holds K.sink_faults out.old out.new) }
    ensures write_causes { WriteCauses (exit_status result)
        (⟦<Outside as OutsideTold>⟧.around world.old world.new)
        (object_of K.sink_tells K.sink_holds K.sink_faults out.old out.new) }
    ensures cleaned_up { IsCleanedUp (EndsGenerate (exit_status result))
        (notes_of (⟦<Desk as DeskTold>⟧.given desk).players) world.new.process.ledger }
{
    cmd_run::laws::proceeding_adds_events();
    match library_of(alloc, desk, world) {
        Err(NoMemory) => Exit::NoMemory,
        Ok(library) => {
            let mut library = library;
            let generated = generate(
                alloc,
                &mut library,
                generate_args.seed,
                generate_args.lines,
                out,
                world,
            );
            library.dismiss();
            generate_exit(generated)
        }
    }
}
