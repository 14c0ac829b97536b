ghost use Rattle.std.specs.Prelude.{◌≡◌, ◌≤◌, IsTrue, length};
ghost use Rattle.script_lang.specs.Fit.{IsFit};
ghost use Rattle.pam_outside.specs.Counts.{RisesIf};
ghost use Rattle.report_step.specs.dispatch_core.specs.Lines.{names_of};
ghost use Rattle.report_step.specs.pam_library.specs.Outcome.{plain_outcome};
ghost use Rattle.report_step.specs.pam_library.specs.Plain.{gear_in};
ghost use Rattle.report_step.specs.Cleaned.{AreOwned};
ghost use Rattle.report_step.specs.Step.{step_text};
ghost use Rattle.record_reader.specs.Object.{object_of};
ghost use Rattle.record_reader.specs.Turns.{has_write_fault};
ghost use Rattle.cmd_run.specs.Report.{WritesReport};
ghost use Rattle.cmd_run.specs.Seen.{IsSoundIn};
ghost use Rattle.cmd_run.specs.Served.{Applies, Serves};

use crate::protocol::Protocol;
use crate::report::write_report;
use crate::time::{TimeOfDay, TimeTold, keep_time};
use crate::world::{set_caller, set_world_moment, set_world_word};
use data_cleanup::Ledger;
use pam_base::{NoMemory, Refuse, Step};
use pam_outside::Sink;
use record_reader::Stop;
use report_step::pam_handle::{Gear, GearTold};
use report_step::pam_library::{Library, Outcome, Session, Told};
use report_step::pam_room::World;
use report_step::step_report;
use script_lang::Line;
use std::alloc::Global;

/// Applies the item after `taken` others at the time of day, if that is known, and writes its report. Returns the fault if
/// the item is refused; a refused item changes nothing.
pub(crate) fn serve<P: Protocol, K: Sink>(
    alloc: Global,
    library: &mut Library,
    taken: u32,
    item: &[u8],
    time: &Option<Box<dyn TimeOfDay>>,
    sink: &mut K,
    world: &mut World,
) -> Result<Option<P::Kind>, Stop>
    requires { IsSoundIn (⟦<Session as Told>⟧.seen library.old world.old) }
    ensures { let seen = ⟦<Session as Told>⟧.seen in
        let timing = ⟦<Option<Box<dyn TimeOfDay>> as TimeTold>⟧.timing in
        Serves P.asked P.wrapped P.step P.fails P.read_step (timing time.now) result taken item.now
        (seen library.old world.old) (seen library.new world.new)
        (object_of K.sink_tells K.sink_holds K.sink_faults sink.old sink.new) }
{
    P::does();
    match P::read(alloc, taken, item) {
        Err(Refuse::NoMemory) => Err(Stop::NoMemory),
        Err(Refuse::Named(kind)) => Ok(Some(kind)),
        Ok(line) => {
            keep_time(time, taken, world);
            match apply_line::<P, K>(alloc, library, line, sink, world) {
                Ok(()) => Ok(None),
                Err(stop) => Err(stop),
            }
        }
    }
}

// Applies a line at the time of the world's clock, and writes its report if it is a call.
fn apply_line<P: Protocol, K: Sink>(
    alloc: Global,
    library: &mut Library,
    line: Line,
    sink: &mut K,
    world: &mut World,
) -> Result<(), Stop>
    requires fit { IsFit line }
    requires sound { IsSoundIn (⟦<Session as Told>⟧.seen library.old world.old) }
    ensures { let seen = ⟦<Session as Told>⟧.seen in
        Applies P.wrapped line result (seen library.old world.old) (seen library.new world.new)
        (object_of K.sink_tells K.sink_holds K.sink_faults sink.old sink.new) }
{
    data_cleanup::due_laws::nothing_moves();
    match line {
        Line::Blank => Ok(()),
        Line::At(moment) => {
            set_world_moment(world, moment);
            Ok(())
        }
        Line::Random(word) => {
            set_world_word(world, word);
            Ok(())
        }
        Line::Caller(caller) => {
            set_caller(world, caller);
            Ok(())
        }
        Line::Step(step) => match library.apply(alloc, world, &step) {
            Err(NoMemory) => Err(Stop::NoMemory),
            Ok(outcome) => {
                let ledger = &world.process.ledger;
                write_step::<P, K>(alloc, library, ledger, &step, &outcome, sink)
            }
        },
    }
}

// Writes the report of a step.
fn write_step<P: Protocol, K: Sink>(
    alloc: Global,
    library: &Library,
    ledger: &Ledger,
    step: &Step,
    outcome: &Outcome,
    sink: &mut K,
) -> Result<(), Stop>
    requires owned { AreOwned (length (⟦<Gear as GearTold>⟧.players
        (gear_in library.now))) ledger.now.births }
    requires from { outcome.now.filed_from ≤ length ledger.now.filed }
    ensures sink_tells { K.sink_tells sink.new ≡ K.sink_tells sink.old }
    ensures told { IsTrue (K.sink_tells sink.old) → WritesReport result (P.wrapped
        (step_text (names_of (⟦<Gear as GearTold>⟧.players (gear_in library.now))) step.now
        (plain_outcome outcome.now) ledger.now)) (K.sink_holds sink.old) (K.sink_holds sink.new) }
    ensures faults { RisesIf (has_write_fault result) (K.sink_faults sink.old)
        (K.sink_faults sink.new) }
{
    match step_report(alloc, library, ledger, step, outcome) {
        Err(NoMemory) => Err(Stop::NoMemory),
        Ok(report) => write_report::<P, K>(alloc, report, sink),
    }
}
