//! The delay after an authentication, `pam_fail_delay(3)`: the longest request, the delay that is
//! varied at random, and the wait, with and without an application's own delay function. Begin at
//! `waiting.rt`.
#![tactic(auto)]

mod delay;
mod delay_fn;
pub mod laws;
mod spread;
mod waiting;

pub use delay::{Delay, LONGEST_REQUEST};
pub use delay_fn::{DelayFn, DelayRule, DelayTold, LONGEST_ASKED};
pub use spread::compute_delay;
pub use waiting::wait_after;
