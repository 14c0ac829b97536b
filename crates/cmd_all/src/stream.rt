ghost use Rattle.std.specs.Prelude.{IsTrue, length};
ghost use Rattle.cmd_run.specs.Made.{ReportsRun};
ghost use Rattle.cmd_all.specs.ByCommand.{IsReady, object_of};
ghost use Rattle.cmd_all.specs.Under.{RunsUnder, stream_runs};

use crate::desk::{Desk, DeskTold};
use crate::opening::{library_under, reset_clock};
use crate::outside::{Outside, OutsideTold};
use cmd_run::{Protocol, run_stream};
use fail_delay::DelayRule;
use pam_base::NoMemory;
use pam_outside::{Sink, Source};
use pam_room::World;
use record_reader::{Ending, Stop};
use std::alloc::Global;

/// Runs a stream of calls under a root, in sixteen transactions with the conversations of `desk`. It begins at the time 0
/// with the random word 0.
pub(crate) fn run_under<P: Protocol, S: Source, K: Sink>(
    alloc: Global,
    root: &[u8],
    script: &mut S,
    out: &mut K,
    world: &mut World,
    desk: Desk,
) -> Result<Ending<P::Kind>, Stop>
    requires { IsReady (length desk.convs.items) (length desk.mods.items)
        (DelayRule.pre desk.delay) (DelayRule.post desk.delay) world.old.process.ledger }
    ensures under { RunsUnder (stream_runs P.runs P.reads P.completes P.is_end) root.now result
        (⟦<Desk as DeskTold>⟧.given desk) (⟦<Outside as OutsideTold>⟧.around world.old world.new)
        (object_of S.source_tells S.source_holds S.source_faults script.old script.new)
        (object_of K.sink_tells K.sink_holds K.sink_faults out.old out.new) }
    ensures reports { let given = ⟦<Desk as DeskTold>⟧.given desk in IsTrue (K.sink_tells out.old) →
        ReportsRun P.wrapped P.last_text given.players result given.slots (K.sink_holds out.old)
        (K.sink_holds out.new) }
{
    cmd_run::laws::proceeding_adds_events();
    P::ends();
    let Desk {
        mods,
        convs,
        term,
        delay,
        time,
    } = desk;
    let desk = Desk {
        mods,
        convs,
        term,
        delay,
        time: None,
    };
    match library_under(alloc, root, desk, world) {
        Err(NoMemory) => {
            drop(time);
            Err(Stop::NoMemory)
        }
        Ok(library) => {
            reset_clock(world);
            let mut library = library;
            let result = run_stream::<P, S, K>(alloc, &mut library, &time, script, out, world);
            drop(time);
            library.dismiss();
            result
        }
    }
}
