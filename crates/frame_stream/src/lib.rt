//! A stream of frames: how they are cut from its bytes, and the result of a run over them, whatever
//! a call does. It knows nothing of transactions. Begin at `frames.rt`.
#![tactic(auto)]

mod fault;
mod frames;
pub mod laws;
mod limit;
mod prefix;

pub use fault::FrameFault;
pub use frames::{CallStepping, FramesOf};
pub use limit::MAX_FRAMES;
pub use prefix::first_frame;
