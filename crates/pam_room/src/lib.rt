//! One `pam_sm_*` call of one module: what the module gets and may do with it, and one line of a
//! stack run with it. A `Room` is a transaction with its conversation, a `World` is what all
//! transactions share. Begin at `module.rt`, the interface of modules, and `serve.rt`, which runs a
//! line and cleans up the data that its module replaced.
#![tactic(auto)]

mod ask;
mod both;
mod bytes;
mod call;
mod end;
mod item;
pub mod laws;
mod module;
mod note;
mod process;
mod room;
mod saying;
mod serve;
mod sweep;
mod transaction;
mod visits;
mod world;

pub use ask::{ask_token, get_user};
pub use both::{Both, Told};
pub use bytes::first_bytes;
pub use call::{Call, value_in};
pub use conv_port;
pub use data_cleanup;
pub use end::end_room;
pub use fail_delay;
pub use item::{get_item, set_item};
pub use item_store;
pub use module::{Module, name_of};
pub use note::spend_by_length;
pub use pam_outside;
pub use process::Process;
pub use room::{Room, RoomTold};
pub use saying::{say, send};
pub use serve::{StackLine, serve_line};
pub use transaction::Transaction;
pub use visits::{Visit, Visits};
pub use world::{World, WorldTold};
