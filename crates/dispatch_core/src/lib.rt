//! One pass over a flattened stack, libpam's `_pam_dispatch`: each line's module serves the call,
//! and the walker goes on as the line's list does. Whatever the modules do, the pass is the walk
//! over the nested stack of `handler_chain`.
//!
//! Begin at pass.rt; turn.rt is one line, and walker.rt with next_line.rt decides where the pass goes
//! on after it.
#![tactic(auto)]

mod answers_so_far;
mod around;
mod entry_states;
pub mod laws;
mod line;
mod next_line;
mod pass;
mod pass_memory;
mod paths;
mod request;
mod turn;
mod walker;

pub use around::{Pass, PassTold};
pub use control_words;
pub use frozen_chain::Paused;
pub use handler_chain;
pub use pam_room;
pub use pam_room::{conv_port, fail_delay, pam_outside};
pub use pass::dispatch;
pub use request::PassRequest;
pub use service_load;
