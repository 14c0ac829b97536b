//! pam_env: variables of a session, set by the two files of `pam_env.conf(5)` and `environment(5)`.
//! Begin at `pam_env.rt`; `conf.rt` and `env_file.rt` read the files, `expand.rt` expands values.
#![tactic(auto)]

mod conf;
mod env_file;
mod expand;
pub mod laws;
mod marks;
mod pam_env;
mod setting;
mod value;

pub use conf::{Entries, EnvLine, Key, Values, conf_of};
pub use env_file::assignments_of;
use module_acts::WorkModule;
use pam_env::EnvWork;
pub use value::{Piece, Pieces};

/// `pam_env(8)`: setcred and open_session set variables by `/etc/security/pam_env.conf`, or the
/// file of `conffile=`, and then by `/etc/environment`, or the file of `envfile=`, unless
/// `readenv=0` is given.
pub type Env = WorkModule<EnvWork>;
