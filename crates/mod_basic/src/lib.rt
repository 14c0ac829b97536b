//! The smallest modules, pam_permit, pam_deny, pam_debug and pam_rootok, and pam_probe, a module
//! for trying out a stack. Each is in a file of its name; begin at `pam_deny.rt`.
#![tactic(auto)]

mod at_once;
mod pam_debug;
mod pam_deny;
mod pam_permit;
mod pam_probe;
mod pam_rootok;
mod request;

pub use at_once::{AtOnce, AtOnceModule};
pub use conv_port;
pub use data_cleanup;
use pam_debug::DebugRules;
use pam_deny::DenyRules;
pub use pam_permit::Permit;
pub use pam_probe::Probe;
pub use pam_room;
use pam_rootok::RootokRules;

/// `pam_debug(8)`: returns the code that an argument names, one argument for each function and two
/// for chauthtok: `auth=`, `cred=`, `acct=`, `prechauthtok=`, `chauthtok=`, `open_session=`,
/// `close_session=`. SUCCESS if the argument is missing or names no code.
pub type Debug = AtOnceModule<DebugRules>;

/// `pam_deny(8)`: the failure of each of the six functions.
pub type Deny = AtOnceModule<DenyRules>;

/// `pam_rootok(8)`: whether the calling process is root's. setcred returns SUCCESS; session
/// functions aren't supported.
pub type Rootok = AtOnceModule<RootokRules>;
