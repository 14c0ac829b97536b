//! The items of a transaction, `pam_set_item(3)` and `pam_get_item(3)`: a text or nothing for each, and which of them
//! an application and a module may set and read. Begin at `items.rt`.
#![tactic(auto)]

mod access;
mod items;
pub mod laws;

pub use access::Access;
pub use items::Items;
