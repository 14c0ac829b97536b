//! One login in the first of sixteen transactions: the user is authenticated, the account is checked, an expired
//! token is changed, credentials are established and a session is opened; then all of that is undone.
//!
//! Begin at attempt.rt; calls.rt has the table of the calls, course.rt makes them one after another, and making.rt
//! makes one.
#![tactic(auto)]

mod attempt;
mod calls;
mod course;
mod making;

pub use attempt::{Verdict, login};
pub use cmd_run;
