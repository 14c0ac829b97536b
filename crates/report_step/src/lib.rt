//! The lines of the report: what a step of the script did and returned, the end of a transaction by the program, and
//! the last line of a run that stopped. Each text is complete before any of it is written.
//!
//! Begin at step.rt, which assembles the lines of a step from those of the other files.
#![tactic(auto)]

mod answered;
mod cleaned;
mod closing;
mod fault;
pub mod laws;
mod missing;
mod result;
mod said;
mod script;
mod step;
mod visited;
mod waited;

pub use closing::closing_report;
pub use fault::refused_report;
pub use pam_library;
pub use pam_library::{data_cleanup, fail_delay, pam_handle, pam_room};
pub use result::result_report;
pub use script::{read_fault_report, script_report};
pub use step::step_report;
