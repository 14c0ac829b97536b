//! The words of a stack: what a line does for each return code (the controls and keywords of
//! `pam.conf(5)`), the rule of a line, and the nested lists of lines and substacks. Begin at
//! `control.rt`.
#![tactic(auto)]

mod action_words;
mod bracket;
mod control;
mod entries;
mod keywords;
mod module;
mod nodes;
mod table;

pub use bracket::{ControlFault, control_of};
pub use conf_lex;
pub use control::{Action, Control};
pub use keywords::{ALL_KEYWORDS, Keyword, control_named};
pub use module::module_name;
pub use nodes::{Node, Nodes, Rule};
