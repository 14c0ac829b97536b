//! The files that a program may see which runs with the rights of the group `shadow` for an ordinary user: of `/etc/shadow`
//! his own lines, no other file with `shadow` in its path or entries like those of shadow, and nothing is written,
//! whatever store is below. Begin at `store.rt`.
#![tactic(auto)]

mod entries;
mod lines;
mod paths;
mod store;

pub use entries::has_entry;
pub use lines::own_lines;
pub use paths::{is_of_shadow, is_shadow};
pub use store::OwnFiles;
