//! The program `pamsess` over any objects: what its arguments ask for, and each command with its exit status.
//!
//! Begin at program.rt; command.rt reads the arguments, stream.rt, login.rt and generation.rt run the commands that need
//! a library, which opening.rt makes, and files.rt those that only read files. exit.rt has the table of exit statuses.
#![tactic(auto)]

mod command;
mod desk;
mod exit;
mod files;
mod generation;
mod login;
mod opening;
mod operand;
mod outside;
mod program;
mod stream;
mod usage;

pub use cmd_run::TimeOfDay;
pub use cmd_tally::mod_tally;
pub use desk::{Desk, DeskTold};
pub use exit::Exit;
pub use outside::{Outside, OutsideTold};
pub use program::pamsess;
