//! What modules may return: the text in which it is written, and the entry of a module in it. Begin
//! at `table.rt`.
#![tactic(auto)]

mod codes;
mod entry;
mod judging;
mod table;

pub use entry::{Entry, codes_of, entry_for};
pub use judging::Judging;
pub use stack_ways;
pub use table::{Table, TableFault, read_table};
