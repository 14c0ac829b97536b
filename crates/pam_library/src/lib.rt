//! libpam's `pam_start(3)` to `pam_end(3)`, for sixteen transactions that share one world, each
//! with its conversation. A step is one call of an application on one of them; it leaves every
//! other as it was.
//!
//! Begin at `apply.rt`; `step.rt` distinguishes closed slots from open ones, and `calls.rt` makes the calls.
#![tactic(auto)]

mod apply;
mod calls;
mod close_one;
mod end;
pub mod laws;
mod library;
mod outcome;
mod place;
mod reply;
mod session;
mod slot;
mod stack_call;
mod start;
mod step;
mod texts;
mod values;
mod world;

pub use conv_port;
pub use data_cleanup;
pub use fail_delay;
pub use library::{Library, LibraryTold};
pub use outcome::{Answer, Outcome};
pub use pam_handle;
pub use pam_handle::pam_room;
pub use session::{Session, Told};
