//! Random service files: stacks of many lines, the same ones for the same seed, to measure a
//! library with. Begin at `files.rt`.
#![tactic(auto)]

mod files;
mod generator;
mod line;

pub use files::{MAX_RANDOM_LINES, RandomFile, file_count, random_files};
