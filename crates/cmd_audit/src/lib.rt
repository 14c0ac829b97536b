//! The command `audit`: whether the report of a run, read from a source, fits the stacks of a service.
//!
//! It uses nothing that runs a transaction: people who audit a report don't trust the program that
//! printed it.
//!
//! Begin at auditing.rt; transcript.rt reads the report, and finding.rt compares it with the stacks.
#![tactic(auto)]

mod auditing;
mod finding;
mod transcript;

pub use auditing::audit_transcript;
pub use finding::Audited;
pub use transcript::{Transcript, read_transcript};
