//! What the programs share: the arguments of the command line, the standard streams, and the exit status.
#![tactic(auto)]

mod args;
mod exit;
mod streams;

pub use args::arguments;
pub use exit::{NO_MEMORY, exit_status};
pub use streams::{NO_STREAMS, reserve_streams};
