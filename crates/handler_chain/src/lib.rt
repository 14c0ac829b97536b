//! What a stack means, and its flat form. How a stack computes its return code (`pam.conf(5)`, `pam_sm_setcred(3)`;
//! libpam: `_pam_dispatch_aux`) is in definitions: the walk over its lines and substacks with the state that it
//! carries, the runs that cache return codes, use cached ones or are incomplete, and the laws on which lines they run.
//! Of this, only the state is code; how a line is run is left open. Begin at `opinion.rt`. The flat form has the lines
//! in written order, each with where the walk goes on after it: jumps, substacks, and the end of a list. Contracts see
//! the nested list that it was made from. Begin at `chain.rt`.
#![tactic(auto)]

mod add_list;
mod chain;
mod chain_line;
mod impression;
pub mod laws;
mod line_count;
mod opinion;
mod pass_kind;
mod seen;

pub use chain::{Chain, flatten};
pub use impression::Impression;
pub use opinion::Opinion;
pub use pass_kind::PassKind;
pub use seen::RecordedLine;
