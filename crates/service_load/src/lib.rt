//! The configuration of a service: its files under `/etc/pam.d`, or its lines of `pam.conf(5)`,
//! with the files that they include, give four stacks, or the first fault. Begin at `loading.rt`.
#![tactic(auto)]

mod by_type;
mod entry;
mod file_rules;
mod inclusion;
mod kept;
pub mod laws;
mod load_fault;
mod loader;
mod loading;
mod names;
mod opener;
mod position;
mod rule_file;
mod rule_type;
mod trees;
mod type_field;

pub use by_type::ByType;
pub use control_words;
pub use entry::{ConfigEntry, RuleContent, named_file};
pub use file_rules::fields_of;
pub use kept::KeptTexts;
pub use load_fault::LoadFault;
pub use loader::{MAX_FILE, MAX_LEVEL};
pub use loading::{load, load_with};
pub use rule_file::{RuleFile, ServiceFiles};
pub use rule_type::{ALL_TYPES, RuleType};
pub use trees::Trees;
pub use type_field::{TypeField, is_word};
