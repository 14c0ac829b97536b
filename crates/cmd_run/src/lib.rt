//! A run of calls over sixteen transactions: each call is made and its report written before the next is read, and
//! after the last one every open transaction is ended.
//!
//! Begin at run.rt; items.rt reads item by item, serve.rt applies one, and closing.rt ends what is open. They serve any
//! `Protocol`; script.rt is that of scripts.
#![tactic(auto)]

mod closing;
mod items;
pub mod laws;
mod protocol;
mod reading;
mod report;
mod run;
mod script;
mod serve;
mod status;
mod time;
mod world;

pub use closing::end_next;
pub use data_cleanup;
pub use protocol::Protocol;
pub use record_reader;
pub use report_step;
pub use report_step::{fail_delay, pam_handle, pam_library, pam_room};
pub use run::run_stream;
pub use script::Script;
pub use script_lang;
pub use status::stop_status;
pub use time::{TimeOfDay, TimeTold, keep_time};
