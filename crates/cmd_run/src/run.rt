ghost use Rattle.std.specs.Prelude.{◌≤◌, IsTrue};
ghost use Rattle.record_reader.specs.Object.{object_of};
ghost use Rattle.cmd_run.specs.Made.{ReportsRun};
ghost use Rattle.cmd_run.specs.Run.{Finishes, Ran};
ghost use Rattle.cmd_run.specs.Seen.{IsSoundIn};

use crate::closing::{close_open, close_silently};
use crate::items::serve_items;
use crate::protocol::Protocol;
use crate::status::{ending_status, stop_status};
use crate::time::{TimeOfDay, TimeTold};
use pam_base::{Failed, NoMemory};
use pam_outside::{Sink, Source, write_all};
use record_reader::{Ending, Stop};
use report_step::pam_library::{Library, Session, Told};
use report_step::pam_room::World;
use std::alloc::Global;

/// Runs a stream of calls, as `P` reads them: the lines of a script, or the frames of a front end. Each call is made in
/// its transaction and its report written before the next one is read. Before each item that isn't refused the world's
/// clock is set to the time of day, if that is known; without one only items set it.
///
/// After the last call every open transaction is ended, the lowest number first, and each is reported before the
/// next:
///
/// - at the end of the input with SUCCESS;
/// - if the source fails with SYSTEM_ERR, and then a script's report ends with `read fault`;
/// - if an item is refused with ABORT, and then a script's report ends with its number and the reason;
/// - if a write fails with SYSTEM_ERR, and nothing more is written;
/// - if an allocation fails with BUF_ERR, and nothing more is written.
///
/// So no transaction is open afterwards, whatever is returned.
pub fn run_stream<P: Protocol, S: Source, K: Sink>(
    alloc: Global,
    library: &mut Library,
    time: &Option<Box<dyn TimeOfDay>>,
    source: &mut S,
    sink: &mut K,
    world: &mut World,
) -> Result<Ending<P::Kind>, Stop>
    requires { IsSoundIn (⟦<Session as Told>⟧.seen library.old world.old) }
    ensures ran { let seen = ⟦<Session as Told>⟧.seen in
        let timing = ⟦<Option<Box<dyn TimeOfDay>> as TimeTold>⟧.timing in
        Ran P.runs P.reads P.completes P.is_end (timing time.now) result
        (seen library.old world.old) (seen library.new world.new)
        (object_of S.source_tells S.source_holds S.source_faults source.old source.new)
        (object_of K.sink_tells K.sink_holds K.sink_faults sink.old sink.new) }

    // If only the sink is modelled: each report is that of a call that the library made.
    ensures reports { let seen = ⟦<Session as Told>⟧.seen in IsTrue (K.sink_tells sink.old) →
        ReportsRun P.wrapped P.last_text (seen library.old world.old).players result
        (seen library.old world.old).slots (K.sink_holds sink.old) (K.sink_holds sink.new) }
{
    data_cleanup::due_laws::all_are_filed();
    P::ends();
    let mut taken = 0;
    match serve_items::<P, S, K>(alloc, library, &mut taken, time, source, sink, world) {
        Err(stop) => {
            close_silently(library, stop_status(stop), world);
            Err(stop)
        }
        Ok(ending) => match finish::<P, K>(alloc, ending, taken, library, sink, world) {
            Ok(()) => Ok(ending),
            Err(stop) => {
                close_silently(library, stop_status(stop), world);
                Err(stop)
            }
        },
    }
}

// Ends and reports the open transactions, and writes what comes last. After an Err some may still be open.
fn finish<P: Protocol, K: Sink>(
    alloc: Global,
    ending: Ending<P::Kind>,
    taken: u32,
    library: &mut Library,
    sink: &mut K,
    world: &mut World,
) -> Result<(), Stop>
    requires few { taken ≤ 65536 }
    requires sound { IsSoundIn (⟦<Session as Told>⟧.seen library.old world.old) }
    ensures { let seen = ⟦<Session as Told>⟧.seen in
        Finishes P.wrapped P.last_text ending taken result (seen library.old world.old)
        (seen library.new world.new)
        (object_of K.sink_tells K.sink_holds K.sink_faults sink.old sink.new) }
{
    match close_open::<P, K>(alloc, library, ending_status(ending), sink, world) {
        Err(stop) => Err(stop),
        Ok(()) => match P::last_report(alloc, ending, taken) {
            Err(NoMemory) => Err(Stop::NoMemory),
            Ok(None) => Ok(()),
            Ok(Some(text)) => match write_all(sink, text.bytes()) {
                Ok(()) => Ok(()),
                Err(Failed) => Err(Stop::WriteFault),
            },
        },
    }
}
