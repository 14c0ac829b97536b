ghost use Rattle.std.specs.Prelude.{List, ℕ, Result};
ghost use Rattle.pam_base.specs.declared.fault.ScriptKind.{ScriptKind};

use crate::prefix::first_line;
use crate::stepping::{FirstItem, Stepping};
use pam_base::ScriptKind;
use std::marker::PhantomData;

/// What the lines of a script do, for those who state the result of a run over them. It has only
/// ghost members.
pub trait LineStepping {
    /// What stays the same in a run.
    ghost Setting: { Type 0 };

    /// What a line changes.
    ghost State: { Type 0 };

    /// The state after a line that follows n others, without its newline, and the text that is written for it; or why it
    /// is refused.
    ghost line_step: { Setting → ℕ → State → List ℕ → Result (State × List ℕ) ScriptKind };

    /// The states that a line after n others may leave if it runs out of memory.
    ghost fails: { Setting → ℕ → State → List ℕ → State → Type 0 };
}

/// The stream of such lines.
pub struct Lines<R: LineStepping> {
    of: PhantomData<R>,
}

impl<R: LineStepping> Stepping for Lines<R> {
    type Kind = ScriptKind;

    ghost use Rattle.record_reader.specs.Looked.{IsOver, looked};
    ghost use Rattle.record_reader.specs.LineRun.{step_at};

    ghost Setting = { R.Setting };

    ghost State = { R.State };

    ghost looked = { looked };

    ghost step = { λ setting. step_at (R.line_step setting) };

    ghost refuses = { IsOver };

    ghost fails = { R.fails };

    fn first_item(before: u32, held: &[u8]) -> FirstItem {
        first_line(before, held)
    }

    fn cuts() {}

    fn keeps() {}
}
