ghost use Rattle.std.specs.Prelude.{◌≡◌, ℕ, IfOk, IsTrue, string_bytes};
ghost use Rattle.pam_base.specs.declared.code.Code.{Code};
ghost use Rattle.pam_base.specs.Call.{is_fit};
ghost use Rattle.pam_outside.specs.Counts.{RisesIf};
ghost use Rattle.cmd_run.specs.pam_library.specs.Slots.{slot_at};
ghost use Rattle.record_reader.specs.Object.{object_of};
ghost use Rattle.record_reader.specs.Turns.{has_write_fault};
ghost use Rattle.cmd_run.specs.Ends.{IsEndStep};
ghost use Rattle.cmd_run.specs.Seen.{AllTell, IsSoundIn, Went, setting_in, state};
ghost use Rattle.cmd_login.specs.Login.{MakesCall, answer_line};
ghost use Rattle.cmd_login.specs.Reported.{Goes, Writes, possible_calls};
ghost use Rattle.cmd_login.specs.Told.{exact_calls, step_of};

use cmd_run::pam_library::{Answer, Library, Session, Told};
use cmd_run::pam_room::World;
use cmd_run::report_step::{refused_report, result_report};
use cmd_run::{TimeOfDay, TimeTold, keep_time};
use pam_base::{AppCall, NoMemory, Step};
use pam_outside::{Sink, write_all};
use record_reader::Stop;
use std::alloc::Global;

/// Makes a call in the first transaction, at the time of day of its place if there is one, and writes the result line
/// alone, not the rest of the report. If a start is refused, that is the line of the fault.
pub(crate) fn make<K: Sink>(
    alloc: Global,
    library: &mut Library,
    place: u32,
    call: AppCall,
    time: &Option<Box<dyn TimeOfDay>>,
    out: &mut K,
    world: &mut World,
) -> Result<Answer, Stop>
    requires fit { IsTrue (is_fit call) }
    requires sound { IsSoundIn (⟦<Session as Told>⟧.seen library.old world.old) }
    ensures goes { let seen = ⟦<Session as Told>⟧.seen in
        Goes (MakesCall place call) (IsEndStep (step_of call))
        (⟦<Option<Box<dyn TimeOfDay>> as TimeTold>⟧.timing time.now) result
        (seen library.old world.old) (seen library.new world.new)
        (object_of K.sink_tells K.sink_holds K.sink_faults out.old out.new) }
{
    keep_time(time, place, world);
    make_now(alloc, library, call, out, world)
}

// The same at the time of the world's clock.
fn make_now<K: Sink>(
    alloc: Global,
    library: &mut Library,
    call: AppCall,
    out: &mut K,
    world: &mut World,
) -> Result<Answer, Stop>
    requires fit { IsTrue (is_fit call) }
    requires sound { IsSoundIn (⟦<Session as Told>⟧.seen library.old world.old) }
    ensures told { let seen = ⟦<Session as Told>⟧.seen in (place : ℕ) → (delay : Code → ℕ → ℕ) →
        (seen library.old world.old).gives delay → AllTell (seen library.old world.old) →
        IsTrue (K.sink_tells out.old) →
        Writes (MakesCall place call) (exact_calls (setting_in (seen library.old world.old) delay))
        result (state (seen library.old world.old)) (state (seen library.new world.new))
        (K.sink_holds out.old) (K.sink_holds out.new) }
    ensures reports { let seen = ⟦<Session as Told>⟧.seen in (place : ℕ) →
        IsTrue (K.sink_tells out.old) →
        Writes (MakesCall place call) possible_calls result
        (state (seen library.old world.old)) (state (seen library.new world.new))
        (K.sink_holds out.old) (K.sink_holds out.new) }
    ensures others { let seen = ⟦<Session as Told>⟧.seen in (number : ℕ) → (number ≡ 1 → ⊥) →
        slot_at (seen library.new world.new).slots number
        ≡ slot_at (seen library.old world.old).slots number }
    ensures went { let seen = ⟦<Session as Told>⟧.seen in Went (IsEndStep (step_of call))
        (seen library.old world.old) (seen library.new world.new) }
    ensures faults { RisesIf (has_write_fault result) (K.sink_faults out.old)
        (K.sink_faults out.new) }
    ensures sink_tells { K.sink_tells out.new ≡ K.sink_tells out.old }
{
    let step = Step { number: 1, call };
    let answer = library.apply(alloc, world, &step)?.answer;
    let line = line_of(alloc, &step, &answer)?;
    write_all(out, line.as_bytes())?;
    Ok(answer)
}

fn line_of(alloc: Global, step: &Step, answer: &Answer) -> Result<String, NoMemory>
    requires { step.now.number ≡ 1 }
    ensures { IfOk result (λ line. string_bytes line ≡ answer_line step.now.call answer.now) }
{
    match answer {
        Answer::Refused(fault) => refused_report(alloc, fault),
        _ => result_report(alloc, step, answer),
    }
}
