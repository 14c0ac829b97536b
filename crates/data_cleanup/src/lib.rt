//! The data that modules keep in a transaction (`pam_set_data(3)`, `pam_get_data(3)`), and the cleanup log, which shows
//! that each is cleaned up once. Module data can't be dropped: its module's cleanup consumes it and gives a cleanup
//! record, which is logged. Begin at `data_list.rt`. Which cleanups the setting of module data and the ends of
//! transactions (`pam_end(3)`) make due, and how a cleanup log and the data lists of many transactions follow that, are
//! the laws of `due_laws.rt`; begin there at `each_is_due_once`.
#![tactic(auto)]

mod data_list;
mod datum;
pub mod due_laws;
pub mod laws;
mod ledger;
mod receipt;

pub use data_list::DataList;
pub use datum::{Birth, Births, Datum};
pub use ledger::Ledger;
pub use receipt::{Filed, Receipt};
