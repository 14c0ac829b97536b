ghost use Rattle.std.specs.Prelude.{List, ℕ};
ghost use Rattle.pam_base.specs.declared.call.Step.{Step};

use crate::fault::FrameFault;
use crate::prefix::first_frame;
use pam_wire::laws;
use record_reader::{FirstItem, Stepping};
use std::marker::PhantomData;

/// What the calls of a front end do, for those who state the result of a run over them. It has only
/// ghost members.
pub trait CallStepping {
    /// What stays the same in a run.
    ghost Setting: { Type 0 };

    /// What a call changes.
    ghost State: { Type 0 };

    /// The state after a call that follows n others, and the answer that is written for it.
    ghost answers: { Setting → ℕ → State → Step → State × List ℕ };

    /// The states that a frame after n others may leave if its call runs out of memory.
    ghost fails: { Setting → ℕ → State → List ℕ → State → Type 0 };
}

/// The stream of the frames of such calls.
pub struct FramesOf<R: CallStepping> {
    of: PhantomData<R>,
}

impl<R: CallStepping> Stepping for FramesOf<R> {
    type Kind = FrameFault;

    ghost use Rattle.frame_stream.specs.Looked.{looked, refuses};
    ghost use Rattle.frame_stream.specs.Run.{step_at};

    ghost Setting = { R.Setting };

    ghost State = { R.State };

    ghost looked = { looked };

    ghost step = { λ setting. step_at (R.answers setting) };

    ghost refuses = { refuses };

    ghost fails = { R.fails };

    fn first_item(before: u32, held: &[u8]) -> FirstItem {
        first_frame(before, held)
    }

    fn cuts() {
        laws::first_frame_settles();
    }

    fn keeps() {
        laws::first_frame_settles();
    }
}
