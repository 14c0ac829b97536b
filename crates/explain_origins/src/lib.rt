//! Where the rules of a service's stacks are written: the files are read once more, in the order in
//! which a load reads them. Begin at `sources.rt`.
#![tactic(auto)]

mod files;
pub mod laws;
mod sources;
mod step;

pub use sources::sources_of;
