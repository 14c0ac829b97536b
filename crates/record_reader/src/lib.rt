//! Cuts a stream of bytes into items one by one, and states the result of a run over them, whatever
//! an item is and does; and cuts a script into its lines, which are such items. It knows nothing of
//! frames and transactions. Begin at `reader.rt`, and for scripts at `lines.rt`.
#![tactic(auto)]

mod ending;
pub mod laws;
mod limit;
mod lines;
mod prefix;
mod reader;
mod stepping;

pub use ending::{Ending, Stop};
pub use limit::{MAX_LINES, limit_of};
pub use lines::{LineStepping, Lines};
pub use prefix::first_line;
pub use reader::{NextItem, Reader};
pub use stepping::{FirstItem, Stepping};
