ghost use Rattle.std.specs.Prelude.{◌≡◌, []};

use crate::conv::{Conv, ConvFault};
use crate::message::{Messages, Replies};
use crate::offer::Offer;
use crate::queue::Queue;
use pam_base::{NoMemory, Text};
use std::alloc::Global;
use std::marker::Model;

/// A conversation with a front end elsewhere. It is modelled, and waits: an exchange with more prompts than there are
/// replies returns Again, and takes none. It is never gone.
#[derive(Drop)]
pub struct WireConv {
    queue: Queue,
    deferrals: u64,
}

impl Model for WireConv {
    ghost use Rattle.conv_port.specs.Queue.{QueueState};

    ghost Value = { QueueState };

    ghost view = { λ q. record {
      offers = q.queue.offers;
      faults = 0;
      deferrals = q.deferrals;
      handed = q.queue.handed;
    } };
}

impl WireConv {
    /// A conversation that holds nothing. It allocates nothing before the first offer.
    pub fn new(alloc: Global) -> Self
        ensures { result ≡ record { offers = []; faults = 0; deferrals = 0; handed = [] } }
    {
        WireConv {
            queue: Queue::new(alloc),
            deferrals: 0,
        }
    }
}

impl Conv for WireConv {
    ghost use Rattle.std.specs.Prelude.{true};

    ghost conv_tells = { λ q. true };

    ghost conv_holds = { λ q. record { offers = q.offers; waits = true; handed = q.handed } };

    ghost conv_faults = { λ q. 0 };

    ghost conv_deferrals = { λ q. q.deferrals };

    fn talk(&mut self, alloc: Global, messages: &Messages) -> Result<Replies, ConvFault> {
        if let Some(replies) = self.queue.exchange(alloc, messages)? {
            return Ok(replies);
        }
        self.deferrals = self.deferrals.saturating_add(1);
        Err(ConvFault::Again)
    }

    // Any text is a reply: there are no marks.
    fn offer(&mut self, alloc: Global, text: &[u8]) -> Result<(), NoMemory> {
        self.queue
            .add(Offer::Answer(Text::from_bytes(alloc, text)?))
    }
}
