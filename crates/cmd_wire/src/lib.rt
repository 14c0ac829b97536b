//! The protocol of a front end: a frame is a call, and its report is written as an answer. `cmd_run::run_stream` runs
//! its frames.
//!
//! Begin at frames.rt, which says how a frame is read and what holds for a run.
#![tactic(auto)]

mod frames;
mod laws;

pub use frame_stream;
pub use frames::Frames;
