//! The command `generate`: stores service files that are generated from a seed, authenticates with them once, and
//! writes the result.
//!
//! Begin at generating.rt; placing.rt stores the files, and login.rt makes the calls.
#![tactic(auto)]

mod generating;
pub mod laws;
mod login;
mod place;
mod placing;

pub use generating::{Generated, generate};
pub use random_config;
