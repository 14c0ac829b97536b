//! For whom a process that serves logins makes its calls, and under which root: by its arguments and by the user and group
//! IDs that the system says it has.
//!
//! Begin at `request_in`.
#![tactic(auto)]

mod ids;
mod request;

pub use ids::{Ids, ids_in};
pub use request::{Request, request_in};
