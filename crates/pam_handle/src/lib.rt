//! One transaction of an application (the Application Developers' Guide): its start, the six calls that run a stack,
//! its items, environment, delays and conversation, and its end. A stack call may return INCOMPLETE; it is resumed when
//! it is called again.
//!
//! Begin at start.rt and calls.rt; stack_call.rt is what the six calls have in common, pass.rt one pass, and pending.rt
//! what a call does before and after its passes if it is incomplete.
#![tactic(auto)]

mod around;
mod calls;
mod chains;
mod conversation;
mod delay;
mod delaying;
mod end;
mod ended;
mod environment;
mod flags;
mod gear;
mod handle;
mod items;
pub mod laws;
mod missing;
mod pass;
mod pending;
mod prepare;
mod put_off;
mod stack_call;
mod start;
mod start_cache;
mod take_told;
mod wait;

pub use around::{CallTold, Calls};
pub use dispatch_core::{pam_room, service_load};
pub use ended::Ended;
pub use flags::has_pass_flag;
pub use gear::{Gear, GearTold};
pub use handle::Handle;
pub use start::StartRefused;
pub use start_cache::StartCache;
pub use take_told::Told;
pub use wait::Wait;
