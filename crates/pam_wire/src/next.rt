ghost use Rattle.std.specs.Prelude.{◌≡◌, IfOk, OnErr};
ghost use Rattle.pam_wire.specs.Stream.{IsStep, next_of};

use crate::prefix::{FirstFrame, LENGTH, first_frame_of};
use crate::step::step_in;
use pam_base::{NoMemory, Step};
use std::alloc::Global;

/// What some bytes begin with.
#[derive(Debug, Drop)]
pub enum Next {
    /// Nothing, or the beginning of a frame.
    Open,
    /// Not a frame, or one that isn't a call.
    Bad,
    /// The frame of a step, of n bytes.
    Frame(Step, usize),
}

pub(crate) fn next_of(alloc: Global, bytes: &[u8]) -> Result<Next, NoMemory>
    ensures next { IfOk result (λ next. next ≡ next_of bytes.now) }
    ensures memory { OnErr result (IsStep (next_of bytes.now)) }
{
    match first_frame_of(bytes) {
        FirstFrame::Open => Ok(Next::Open),
        FirstFrame::OutOfRange => Ok(Next::Bad),
        FirstFrame::Whole(size) => match step_in(alloc, &bytes[LENGTH..size])? {
            Some(step) => Ok(Next::Frame(step, size)),
            None => Ok(Next::Bad),
        },
    }
}
