//! The text that says who gets in: the rules of each stack of a service, one per line, and the ways
//! in which the stack may end. Begin at `service_text.rt`.
#![tactic(auto)]

mod control_text;
mod fields;
mod module_text;
mod row;
mod rule_text;
mod service_text;
mod stack_text;
mod way_text;

pub use explain_lines;
pub use module_table;
pub use row::{Row, Rows, rows_of};
pub use service_load;
pub use service_text::write_service;
