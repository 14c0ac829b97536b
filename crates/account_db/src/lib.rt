//! The account files of a system: the entries of `passwd(5)`, `group(5)` and `shadow(5)`, the shells of `shells(5)`,
//! and a new hash in a shadow file. Begin at `passwd.rt`.
#![tactic(auto)]

mod entry;
mod fault;
mod group;
pub mod laws;
mod members;
mod parts;
mod passwd;
mod replace;
mod shadow;
mod shell_list;

pub use entry::{AccountEntry, EntryFile, entry_of};
pub use fault::DbFault;
pub use group::{Group, Groups, groups};
pub use members::{group_names, group_of, is_in_group, is_member};
pub use passwd::{Passwd, entry_of_uid, passwds};
pub use replace::replace_hash;
pub use shadow::{Shadow, shadows};
pub use shell_list::{shells, without_end};

/// The entries of a password file.
pub type PasswdFile = EntryFile<Passwd>;

/// The entries of a shadow file.
pub type ShadowFile = EntryFile<Shadow>;
