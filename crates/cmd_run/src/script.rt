ghost use Rattle.std.specs.Prelude.{◌≡◌, ◌≤◌, IfOk, IsTrue, OnErr, is_some};

use crate::protocol::Protocol;
use pam_base::{NoMemory, Refuse, ScriptKind, Text};
use record_reader::{Ending, FirstItem, LineStepping, Lines, MAX_LINES, Stepping, first_line};
use report_step::{read_fault_report, script_report};
use script_lang::{Line, parse};
use std::alloc::Global;

/// The lines of a script. Reports are written unchanged.
pub struct Script;

// What a line does, for the laws on streams of lines.
struct Meaning;

impl LineStepping for Meaning {
    ghost use Rattle.cmd_run.specs.State.{Setting as RunSetting, RunState};
    ghost use Rattle.cmd_run.specs.Step.{line_step, Fails};

    ghost Setting = { RunSetting };

    ghost State = { RunState };

    ghost line_step = { line_step };

    ghost fails = { Fails };
}

// Whether a line is refused, for the same laws.
struct Refusing;

impl LineStepping for Refusing {
    ghost use Rattle.cmd_run.specs.Reading.{AnyState as NoState, line_read as reads_line};

    ghost Setting = { Unit {0} };

    ghost State = { Unit {0} };

    ghost line_step = { λ _. reads_line };

    ghost fails = { λ _. NoState };
}

impl Protocol for Script {
    ghost use Rattle.record_reader.specs.Looked.{IsOver, looked};
    ghost use Rattle.record_reader.specs.LineRun.{step_at};
    ghost use Rattle.cmd_run.specs.Ends.{IsEndOfRun};
    ghost use Rattle.cmd_run.specs.Reading.{ReadsScript, line_read};
    ghost use Rattle.cmd_run.specs.Script.{as_it_is, line_asked, script_step};
    ghost use Rattle.cmd_run.specs.Step.{Fails as LineFails};
    ghost use Rattle.cmd_run.specs.Whole.{Completes, RunsScript, script_last};

    type Kind = ScriptKind;

    ghost looked = { looked };

    ghost refuses = { IsOver };

    ghost asked = { line_asked };

    ghost wrapped = { as_it_is };

    ghost step = { script_step };

    ghost fails = { LineFails };

    ghost read_step = { step_at line_read };

    ghost last_text = { script_last };

    ghost runs = { RunsScript };

    ghost reads = { ReadsScript };

    ghost completes = { Completes };

    ghost is_end = { IsEndOfRun };

    fn first_item(before: u32, held: &[u8]) -> FirstItem {
        first_line(before, held)
    }

    fn cuts() {
        Lines::<Meaning>::cuts();
    }

    fn keeps() {
        Lines::<Meaning>::keeps();
        Lines::<Refusing>::keeps();
    }

    fn does() {}

    fn ends() {
        report_step::pam_library::laws::calls_add_their_events();
        data_cleanup::due_laws::end_adds_its_event();
        record_reader::laws::whole_input_is_looked_at();
    }

    fn read(alloc: Global, taken: u32, item: &[u8]) -> Result<Line, Refuse<ScriptKind>> {
        if taken >= MAX_LINES {
            return Err(Refuse::Named(ScriptKind::TooManyLines));
        }
        parse(alloc, item)
    }

    fn wrap(_alloc: Global, report: String) -> Result<Text, NoMemory> {
        Ok(Text::from_vec(report.into_bytes()))
    }

    fn last_report(
        alloc: Global,
        ending: Ending<ScriptKind>,
        taken: u32,
    ) -> Result<Option<Text>, NoMemory>
        requires { taken ≤ 65536 }
        ensures ok { IfOk result (λ text. text ≡ script_last ending taken) }
        ensures err { OnErr result (IsTrue (is_some (script_last ending taken))) }
    {
        match ending {
            Ending::Done => Ok(None),
            Ending::ReadFault => {
                let text = String::from_str(alloc, read_fault_report())?;
                Ok(Some(Text::from_vec(text.into_bytes())))
            }
            Ending::Refused(kind) => {
                let text = script_report(alloc, taken + 1, kind)?;
                Ok(Some(Text::from_vec(text.into_bytes())))
            }
        }
    }
}
