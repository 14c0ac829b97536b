//! `pam_faillock(8)`: the failures of each user are counted in a file, and a user who failed too
//! often is locked. Begin at `pam_faillock.rt`; `tally.rt` has the file's form, `counted.rt` the
//! lock.
#![tactic(auto)]

mod counted;
mod failure;
pub mod laws;
mod pam_faillock;
mod settings;
mod source;
mod tally;
mod tally_file;
mod task;

pub use counted::write_failure;
use module_acts::CheckModule;
use pam_faillock::FaillockCheck;
pub use tally::{Damaged, Failure, Failures, failures};
pub use tally_file::{TALLY_LIMIT, is_no_file};

/// `pam_faillock(8)`: the failures of each user are counted in a file, and a user who failed too often is locked.
pub type Faillock = CheckModule<FaillockCheck>;
