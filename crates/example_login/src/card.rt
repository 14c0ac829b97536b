ghost use Rattle.std.specs.Prelude.{◌≡◌, false, [], ◌≤◌, length};
ghost use Rattle.pam_base.specs.Counts.{next_count};

use conv_port::{Conv, ConvFault, Messages, Replies, Reply};
use pam_base::{NoMemory, Text};
use std::alloc::Global;

/// A conversation of the application's own: a card is read before PAM is asked, and its number is the reply to the one
/// prompt. An exchange of several messages is Gone, since there is nobody to read them.
#[derive(Drop)]
pub struct Card {
    faults: u64,
}

impl Card {
    pub fn new() -> Self
        ensures { result ≡ record { faults = 0 } }
    {
        Card { faults: 0 }
    }
}

impl Conv for Card {
    ghost conv_tells = { λ _. false };

    ghost conv_holds = { λ _. record { offers = []; waits = false; handed = [] } };

    ghost conv_faults = { λ c. c.faults };

    ghost conv_deferrals = { λ _. 0 };

    fn talk(&mut self, alloc: Global, messages: &Messages) -> Result<Replies, ConvFault> {
        let [message] = messages.items() else {
            self.faults = self.faults.saturating_add(1);
            return Err(ConvFault::Gone);
        };
        let mut replies = Replies::new(alloc);
        let text = if message.is_prompt() {
            Text::from_bytes(alloc, b"4711")?
        } else {
            Text::new(alloc)
        };
        replies.push(Reply { text })?;
        Ok(replies)
    }

    fn offer(&mut self, _alloc: Global, _text: &[u8]) -> Result<(), NoMemory> {
        Ok(())
    }
}
