//! The normal form in which the stacks of a service are printed: its file, and a file for each of
//! its substacks. What is printed loads to the same stacks. Begin at `printing.rt`.
#![tactic(auto)]

mod control;
mod file;
pub mod laws;
mod line;
mod printing;
mod substack;
mod token;

pub use file::{File, Files};
pub use printing::print;
pub use service_load;
