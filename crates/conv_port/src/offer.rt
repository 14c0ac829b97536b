ghost use Rattle.std.specs.Prelude.{◌≡◌, IfOk};
ghost use Rattle.conv_port.specs.Conv.{offer_of};

use pam_base::{NoMemory, Text};
use std::alloc::Global;

/// What an application offered to a conversation before it was asked for.
#[derive(Debug, Drop)]
pub enum Offer {
    /// The reply to a prompt.
    Answer(Text),
    /// A mark: an exchange with a prompt that finds it first returns Again.
    Later,
}

/// The six bytes that mean a mark.
const LATER: &[u8] = b"\\later";

impl Offer {
    /// What this text offers to a conversation that doesn't wait.
    pub(crate) fn new(alloc: Global, text: &[u8]) -> Result<Offer, NoMemory>
        ensures { IfOk result (λ offer. offer ≡ offer_of text.now) }
    {
        if text == LATER {
            Ok(Offer::Later)
        } else {
            Ok(Offer::Answer(Text::from_bytes(alloc, text)?))
        }
    }
}
