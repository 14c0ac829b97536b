//! Replays a stack call from its report: each line returns the code of the next recorded line, if
//! that belongs to this line. A checker of reports trusts nothing of the program that printed them,
//! so this depends on the loaded stacks alone.
//!
//! Begin at `retelling.rt`; `by_call.rt` has which stack a call runs and which codes are cached for
//! it, `pass.rt` one pass, `walk.rt` the walk over a list, `replay.rt` the code of a line.
#![tactic(auto)]

pub mod answers;
mod by_call;
pub mod held;
pub mod next_node;
pub mod pass;
pub mod passed;
pub mod replay;
mod retelling;
mod retold;
mod told;
mod visited;
pub mod walk;

pub use by_call::{kind_of, stack_type};
pub use held::Held;
pub use retelling::retell;
pub use retold::Retold;
pub use told::first_visit;
