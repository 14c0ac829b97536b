//! The frames of docs/wire.md, served: what `pam_service` and `pam_service_user` share. Begin at `serve.rt`.
#![tactic(auto)]

mod conversations;
mod serve;
mod streams;
mod wait;
mod words;

pub use conversations::{Conversations, ConversationsTold};
pub use serve::serve_frames;
pub use streams::serve_streams;
pub use words::{NOBODY, no_words, system_text, wire_words, words_of};
