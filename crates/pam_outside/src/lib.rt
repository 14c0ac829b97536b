//! What the runtime uses of its surroundings: where bytes come from and go to, files by path, the time of day, random
//! words, and sleep. Contracts know the content of the objects in memory: these are modelled. Of the real ones, which
//! are in `system_objects`, they only know the number of failures. Begin at `vault.rt`.
#![tactic(auto)]

mod calls;
mod clock;
mod fixed_clock;
mod held;
mod memory_sink;
mod memory_source;
mod memory_vault;
mod nap;
mod nap_sum;
mod paths;
mod sink;
mod source;
mod vault;
mod whole;

pub use clock::{Clock, MAX_MOMENT, Owner, current_moment, random_word, set_moment, set_word};
pub use fixed_clock::FixedClock;
pub use held::{FileLock, LockKind};
pub use memory_sink::MemSink;
pub use memory_source::MemSource;
pub use memory_vault::MemVault;
pub use nap::{Nap, rest};
pub use nap_sum::NapSum;
pub use paths::{joined, path_of};
pub use sink::Sink;
pub use source::Source;
pub use vault::{
    MAX_FILE, ReplaceFault, Vault, VaultFault, hold_file, is_directory, let_go, read_file,
    replace_file,
};
pub use whole::write_all;
