//! The environment of a transaction, `pam_putenv(3)`, `pam_getenv(3)` and `pam_getenvlist(3)`:
//! variables with different names, in the order in which they were first set.
#![tactic(auto)]

mod environment;
pub mod laws;

pub use environment::EnvList;
