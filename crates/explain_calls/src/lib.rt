//! What became of each rule of a stack in a stack call that is replayed by its report. Begin at
//! `calls.rt`, which has one call; `runs.rt` has one run of a stack, and `walk.rt` the walk over a
//! list.
#![tactic(auto)]

mod calls;
mod runs;
mod turn;
mod walk;

pub use calls::{write_call, write_refused};
pub use explain_lines;
