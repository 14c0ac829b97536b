//! `pam_wheel(8)`, `pam_securetty(8)` and `pam_pwhistory(8)`: who may become root and where, and
//! which passwords were used before. Each module is in a file of its name; begin at
//! `pam_securetty.rt`, and for the history at `change.rt`.
#![tactic(auto)]

mod arguments;
mod change;
mod distinct;
mod file;
mod history;
mod job;
pub mod laws;
mod locked;
mod pam_pwhistory;
mod pam_securetty;
mod pam_wheel;
mod refusal;
mod renewal;

pub use history::{Damaged, History, Remembered, read_history};
pub use mod_unix;
use module_acts::{CheckModule, WorkModule};
use pam_pwhistory::PwhistoryWork;
use pam_securetty::SecurettyCheck;
use pam_wheel::WheelCheck;

/// `pam_securetty(8)`: AUTH_ERR if root logs in at a terminal that isn't in `/etc/securetty`, else
/// SUCCESS.
pub type Securetty = CheckModule<SecurettyCheck>;

/// `pam_wheel(8)`: PERM_DENIED unless the calling process belongs to a user in the group wheel, or
/// with `deny` if it does. Otherwise IGNORE, or SUCCESS with `trust`.
pub type Wheel = CheckModule<WheelCheck>;

/// `pam_pwhistory(8)`: a new password that the user has or had is refused; otherwise the hash of
/// the present one is remembered in `/etc/security/pamsess_history`.
pub type Pwhistory = WorkModule<PwhistoryWork>;
