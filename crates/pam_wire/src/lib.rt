//! The byte protocol: an application's calls and their answers as frames, for a front end on the
//! other side of a pipe. It knows nothing of transactions. Begin at `frames.rt`.
#![tactic(auto)]

mod frame;
mod frames;
mod kind;
pub mod laws;
mod next;
mod prefix;
mod step;

pub use conv_port::WireConv;
pub use frame::{answer_of, frame_of};
pub use frames::{BadFrame, Frames};
pub use next::Next;
pub use prefix::{FirstFrame, first_frame_of};
pub use step::step_of;
