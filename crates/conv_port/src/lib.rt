//! Conversations (`pam_conv(3)`): how a module asks the user and shows messages, through what the application has
//! supplied. One has its replies ready, one waits for them, and one uses a terminal. Begin at `conv.rt`.
#![tactic(auto)]

mod conv;
mod input;
pub mod laws;
mod message;
mod offer;
mod queue;
mod queue_conv;
mod term_conv;
mod wire_conv;

pub use conv::{Conv, ConvFault, offer_to, talk_with};
pub use input::next_byte;
pub use message::{Message, Messages, Replies, Reply};
pub use offer::Offer;
pub use queue_conv::QueueConv;
pub use term_conv::TermConv;
pub use wire_conv::WireConv;
