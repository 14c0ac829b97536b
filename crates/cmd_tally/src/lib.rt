//! The command `tally`: the failures that `pam_faillock(8)` has recorded of a user, one per line.
//!
//! Begin at list.rt; finding.rt reads the file and makes the text.
#![tactic(auto)]

mod finding;
mod list;

pub use finding::Tallied;
pub use list::list_failures;
pub use mod_tally;
