ghost use Rattle.record_reader.specs.Object.{object_of};
ghost use Rattle.cmd_run.specs.Seen.{IsSoundIn};
ghost use Rattle.cmd_run.specs.Reported.{EndsLowest, EndsOne, EndsOpen, EndsSilently};

use crate::protocol::Protocol;
use crate::report::write_report;
use pam_base::{Code, NoMemory, code_number};
use pam_outside::Sink;
use record_reader::Stop;
use report_step::closing_report;
use report_step::pam_library::{Library, Session, Told};
use report_step::pam_room::World;
use std::alloc::Global;

/// Ends every open transaction with this status, the lowest number first, and writes the report of each before it
/// ends the next. After an Err the last report may be incomplete, and the transactions after it are
/// still open.
pub(crate) fn close_open<P: Protocol, K: Sink>(
    alloc: Global,
    library: &mut Library,
    status: Code,
    sink: &mut K,
    world: &mut World,
) -> Result<(), Stop>
    requires { IsSoundIn (⟦<Session as Told>⟧.seen library.old world.old) }
    ensures { let seen = ⟦<Session as Told>⟧.seen in
        EndsOpen P.wrapped status result (seen library.old world.old) (seen library.new world.new)
        (object_of K.sink_tells K.sink_holds K.sink_faults sink.old sink.new) }
{
    loop {
        match close_next::<P, K>(alloc, library, status, sink, world) {
            Ok(true) => {}
            Ok(false) => return Ok(()),
            Err(stop) => return Err(stop),
        }
    }
}

// Ends the open transaction with the lowest number and writes its report. Returns whether one was open.
fn close_next<P: Protocol, K: Sink>(
    alloc: Global,
    library: &mut Library,
    status: Code,
    sink: &mut K,
    world: &mut World,
) -> Result<bool, Stop>
    requires { IsSoundIn (⟦<Session as Told>⟧.seen library.old world.old) }
    ensures { let seen = ⟦<Session as Told>⟧.seen in
        EndsOne P.wrapped status result (seen library.old world.old) (seen library.new world.new)
        (object_of K.sink_tells K.sink_holds K.sink_faults sink.old sink.new) }
{
    let before = world.process.ledger.filed().len() as u64;
    let Some(number) = end_next(library, status, world) else {
        return Ok(false);
    };
    let report = match closing_report(
        alloc,
        library,
        &world.process.ledger,
        number,
        before,
        status,
    ) {
        Ok(report) => report,
        Err(NoMemory) => return Err(Stop::NoMemory),
    };
    match write_report::<P, K>(alloc, report, sink) {
        Ok(()) => Ok(true),
        Err(stop) => Err(stop),
    }
}

/// Ends every open transaction with this status, the lowest number first, and writes nothing. It allocates nothing.
pub(crate) fn close_silently(library: &mut Library, status: Code, world: &mut World)
    requires { IsSoundIn (⟦<Session as Told>⟧.seen library.old world.old) }
    ensures { let seen = ⟦<Session as Told>⟧.seen in
        EndsSilently status (seen library.old world.old) (seen library.new world.new) }
{
    while let Some(_number) = end_next(library, status, world) {}
}

/// Ends the open transaction with the lowest number and returns that number; None if none is open. It allocates
/// nothing.
pub fn end_next(library: &mut Library, status: Code, world: &mut World) -> Option<u32>
    requires { IsSoundIn (⟦<Session as Told>⟧.seen library.old world.old) }
    ensures { let seen = ⟦<Session as Told>⟧.seen in
        EndsLowest status result (seen library.old world.old) (seen library.new world.new) }
{
    library.close_one(world, code_number(status))
}
