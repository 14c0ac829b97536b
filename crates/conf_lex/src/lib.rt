//! Service files as text: the rules of a file of `/etc/pam.d` or of `pam.conf(5)`, as tokens with
//! the number of the line in which they begin, or the first fault of the text. What the tokens mean
//! is decided elsewhere. Begin at `service_file.rt`.
#![tactic(auto)]

pub mod laws;
mod lexer;
mod prefix;
mod service_file;
mod token;

pub use service_file::rules;
pub use token::{LexFault, RawRule, RawRules, Token, Tokens};
