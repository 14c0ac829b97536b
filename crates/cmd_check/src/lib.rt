//! The command `check`: prints the configuration of a service in one form, or its first fault. Begin at finding.rt.
#![tactic(auto)]

mod finding;

pub use finding::{Checked, check};
pub use report_step::{pam_handle, pam_library};
