ghost use Rattle.std.specs.Prelude.{◌≡◌, []};
ghost use Rattle.pam_base.specs.Counts.{next_count};

use crate::conv::{Conv, ConvFault};
use crate::message::{Messages, Replies};
use crate::offer::Offer;
use crate::queue::Queue;
use pam_base::NoMemory;
use std::alloc::Global;
use std::marker::Model;

/// A conversation with replies that were offered to it, in order. It is modelled, and doesn't wait.
#[derive(Drop)]
pub struct QueueConv {
    queue: Queue,
    faults: u64,
    deferrals: u64,
}

impl Model for QueueConv {
    ghost use Rattle.conv_port.specs.Queue.{QueueState};

    ghost Value = { QueueState };

    ghost view = { λ q. record {
      offers = q.queue.offers;
      faults = q.faults;
      deferrals = q.deferrals;
      handed = q.queue.handed;
    } };
}

impl QueueConv {
    /// A conversation that holds nothing. It allocates nothing before the first offer.
    pub fn new(alloc: Global) -> Self
        ensures { result ≡ record { offers = []; faults = 0; deferrals = 0; handed = [] } }
    {
        QueueConv {
            queue: Queue::new(alloc),
            faults: 0,
            deferrals: 0,
        }
    }
}

impl Conv for QueueConv {
    ghost use Rattle.std.specs.Prelude.{true, false};

    ghost conv_tells = { λ q. true };

    ghost conv_holds = { λ q. record { offers = q.offers; waits = false; handed = q.handed } };

    ghost conv_faults = { λ q. q.faults };

    ghost conv_deferrals = { λ q. q.deferrals };

    fn talk(&mut self, alloc: Global, messages: &Messages) -> Result<Replies, ConvFault> {
        if let Some(replies) = self.queue.exchange(alloc, messages)? {
            return Ok(replies);
        }
        if self.queue.take_mark() {
            self.deferrals = self.deferrals.saturating_add(1);
            Err(ConvFault::Again)
        } else {
            self.faults = self.faults.saturating_add(1);
            Err(ConvFault::Gone)
        }
    }

    fn offer(&mut self, alloc: Global, text: &[u8]) -> Result<(), NoMemory> {
        self.queue.add(Offer::new(alloc, text)?)
    }
}
