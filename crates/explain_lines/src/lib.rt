//! The lines that say what became of each rule of a stack: what its module returned, the action
//! that its control picked, the state that this made, why it wasn't run, and which rule decided.
//! Begin at `run_text.rt`; `row.rt` has what is known of a rule.
#![tactic(auto)]

mod origin;
mod row;
mod row_text;
mod run_text;

pub use origin::{Origin, Origins, Sources};
pub use row::{Fate, Row, Rows};
pub use run_text::write_run;
pub use script_lang;
