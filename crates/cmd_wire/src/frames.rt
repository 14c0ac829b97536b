ghost use Rattle.std.specs.Prelude.{◌≡◌, ◌≤◌, IfOk, IsTrue, OnErr, is_some};

use crate::laws::reading_is_of_steps;
use cmd_run::Protocol;
use cmd_run::script_lang::Line;
use frame_stream::{CallStepping, FrameFault, FramesOf, MAX_FRAMES, first_frame};
use pam_base::{NoMemory, Refuse, Text};
use pam_wire::{answer_of, step_of};
use record_reader::{Ending, FirstItem, Stepping};
use std::alloc::Global;

/// The frames of a front end; each report is written as an answer.
pub struct Frames;

/// What a call does, for the laws on streams of frames.
pub(crate) struct Meaning;

impl CallStepping for Meaning {
    ghost use Rattle.cmd_run.specs.State.{Setting as RunSetting, RunState};
    ghost use Rattle.cmd_wire.specs.Step.{answers, Fails};

    ghost Setting = { RunSetting };

    ghost State = { RunState };

    ghost answers = { answers };

    ghost fails = { Fails };
}

/// Whether a frame is refused, for the same laws.
pub(crate) struct Refusing;

impl CallStepping for Refusing {
    ghost use Rattle.cmd_run.specs.Reading.{AnyState as NoState};
    ghost use Rattle.cmd_wire.specs.Reading.{call_read as reads_call};

    ghost Setting = { Unit {0} };

    ghost State = { Unit {0} };

    ghost answers = { λ _. reads_call };

    ghost fails = { λ _. NoState };
}

impl Protocol for Frames {
    ghost use Rattle.frame_stream.specs.Looked.{looked, refuses};
    ghost use Rattle.frame_stream.specs.Run.{step_at};
    ghost use Rattle.pam_wire.specs.Frame.{answer_of};
    ghost use Rattle.cmd_wire.specs.Answered.{nothing_last};
    ghost use Rattle.cmd_wire.specs.Ends.{IsEndOfRun};
    ghost use Rattle.cmd_wire.specs.Reading.{ReadsFrames, call_read};
    ghost use Rattle.cmd_wire.specs.Step.{Fails as FrameFails, frame_asked, frame_step};
    ghost use Rattle.cmd_wire.specs.Whole.{Completes, RunsAnswered};

    type Kind = FrameFault;

    ghost looked = { looked };

    ghost refuses = { refuses };

    ghost asked = { frame_asked };

    ghost wrapped = { answer_of };

    ghost step = { frame_step };

    ghost fails = { FrameFails };

    ghost read_step = { step_at call_read };

    ghost last_text = { nothing_last };

    ghost runs = { RunsAnswered };

    ghost reads = { ReadsFrames };

    ghost completes = { Completes };

    ghost is_end = { IsEndOfRun };

    fn first_item(before: u32, held: &[u8]) -> FirstItem {
        first_frame(before, held)
    }

    fn cuts() {
        FramesOf::<Meaning>::cuts();
    }

    fn keeps() {
        FramesOf::<Meaning>::keeps();
        FramesOf::<Refusing>::keeps();
    }

    fn does() {}

    fn ends() {
        frame_stream::laws::bytes_spell_steps();
        frame_stream::laws::runs_are_of_steps::<Meaning>();
        frame_stream::laws::all_are_looked_at();
        pam_wire::laws::frame_is_read();
        reading_is_of_steps();
    }

    fn read(alloc: Global, taken: u32, item: &[u8]) -> Result<Line, Refuse<FrameFault>> {
        if taken >= MAX_FRAMES {
            return Err(Refuse::Named(FrameFault::TooManyFrames));
        }
        match step_of(alloc, item) {
            Err(NoMemory) => Err(Refuse::NoMemory),
            Ok(None) => Err(Refuse::Named(FrameFault::BadFrame)),
            Ok(Some(step)) => Ok(Line::Step(step)),
        }
    }

    fn wrap(alloc: Global, report: String) -> Result<Text, NoMemory> {
        answer_of(alloc, report.as_bytes())
    }

    fn last_report(
        _alloc: Global,
        _ending: Ending<FrameFault>,
        _taken: u32,
    ) -> Result<Option<Text>, NoMemory>
        requires { _taken ≤ 65536 }
        ensures ok { IfOk result (λ text. text ≡ nothing_last _ending _taken) }
        ensures err { OnErr result (IsTrue (is_some (nothing_last _ending _taken))) }
    {
        Ok(None)
    }
}
