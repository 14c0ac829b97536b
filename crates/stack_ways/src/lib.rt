//! Under which return codes of its lines a stack ends how: what a host's administrator asks before
//! the first login ("who gets in?"), for all answers of the modules at once.
//!
//! Begin at `ways.rt`.
#![tactic(auto)]

mod add_way;
pub mod laws;
mod line;
mod line_codes;
mod line_count;
mod next_node;
mod way;
mod ways;

pub use add_way::WaysFault;
pub use line_codes::LineCodes;
pub use way::{Way, Ways};
pub use ways::possible_ways;
