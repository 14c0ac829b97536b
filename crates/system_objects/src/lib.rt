//! The objects over the system that the programs give to the runtime: files, the clock and its random words, sleep,
//! readers and writers. Contracts know the number of their failures, and nothing of what they hold. Begin at
//! `folder_vault.rt`.
#![tactic(auto)]

mod below;
mod beside;
mod counted;
mod folder_vault;
mod held_file;
mod limited;
mod lock;
mod read_at;
mod reader_source;
mod real_clock;
mod sleep_nap;
mod system;
mod writer_sink;

pub use counted::Counted;
pub use folder_vault::FolderVault;
pub use reader_source::ReaderSource;
pub use real_clock::{RealClock, system_moment};
pub use sleep_nap::SleepNap;
pub use writer_sink::WriterSink;
