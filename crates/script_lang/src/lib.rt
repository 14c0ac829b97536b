//! The language of scripts: what a line asks for, by a table of commands, whose words reports
//! print, too. Begin at `line.rt`.
#![tactic(auto)]

mod call;
mod command;
mod cut;
pub mod laws;
mod line;
mod number;
mod place;
mod value;

pub use command::{Command, call_word};
pub use line::{Line, parse};
