//! `pam_unix(8)`: passwords of `passwd(5)` and `shadow(5)`. Begin at `pam_unix.rt`;
//! `authenticate.rt`, `account.rt` and `change.rt` have its functions.
#![tactic(auto)]

mod account;
mod aging;
mod authenticate;
mod change;
mod job;
pub mod laws;
mod look;
mod new_hash;
mod new_token;
mod pam_unix;
mod store;
mod verify;

pub use look::{KnownPassword, look_up};
pub use module_acts;
pub use new_token::take_token;
pub use pam_unix::Unix;
pub use store::write_result;
pub use verify::is_locked;
