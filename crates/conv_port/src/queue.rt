ghost use Rattle.std.specs.Prelude.{◌≡◌, ◌<◌, ◌≤◌, nat_le, [], ◌∷◌, ◌++◌, drop, length, IfOk, IfSome, IsTrue, OnOk, OnErr};
ghost use Rattle.pam_base.specs.Style.{is_prompt};
ghost use Rattle.conv_port.specs.Message.{AreReplies, prompt_count};
ghost use Rattle.conv_port.specs.Conv.{ready_replies, replies_from, starts_with_mark, without_mark};
ghost use Rattle.conv_port.specs.Queue.{Exchanges, IsShort, TakesReply};

use crate::message::{Message, Messages, Replies, Reply, prompts_in};
use crate::offer::Offer;
use pam_base::{NoMemory, Text};
use std::alloc::Global;
use std::collections::VecDeque;
use std::marker::Model;
use std::snapshot::Snapshot;

/// What a conversation in memory holds: the offers that aren't taken yet, in order, and what was
/// passed to it.
#[derive(Drop)]
pub(crate) struct Queue {
    offers: VecDeque<Offer>,
    // Only for contracts: neither an element nor the memory of the list takes any bytes.
    handed: Vec<Snapshot<Messages>>,
}

impl Model for Queue {
    ghost use Rattle.std.specs.Prelude.{map};
    ghost use Rattle.conv_port.specs.Queue.{PlainQueue, AreShort};

    ghost Value = { PlainQueue };

    ghost view = { λ q. record {
      offers = q.offers.items;
      handed = map (λ s. s.value) q.handed.items;
    } };

    ghost invariant = { λ q. AreShort q.offers.items };
}

impl Queue {
    /// It allocates nothing before the first offer.
    pub(crate) fn new(alloc: Global) -> Self
        ensures { result ≡ record { offers = []; handed = [] } }
    {
        Queue {
            offers: VecDeque::new(alloc),
            handed: Vec::new(alloc),
        }
    }

    /// Takes the replies to an exchange; None if there are too few, and none is taken then.
    pub(crate) fn exchange(
        &mut self,
        alloc: Global,
        messages: &Messages,
    ) -> Result<Option<Replies>, NoMemory>
        ensures fit { IfOk result (λ found. IfSome found (λ replies.
            AreReplies messages.now replies)) }
        ensures taken { IfOk result (λ found. Exchanges found messages.now self.old self.new) }
        ensures err { OnErr result (self.new ≡ self.old) }
    {
        self.handed.reserve(1)?;
        if are_ready(prompts_in(messages.items()), &self.offers) {
            let replies = take_replies(alloc, messages.items(), &mut self.offers)?;
            self.handed.push(Snapshot::of(messages)).unwrap();
            return Ok(Some(Replies::from_vec(replies)));
        }
        self.handed.push(Snapshot::of(messages)).unwrap();
        Ok(None)
    }

    /// Removes a mark if it comes first, and returns whether there was one.
    pub(crate) fn take_mark(&mut self) -> bool
        ensures found { result ≡ starts_with_mark self.old.offers }
        ensures taken { self.new ≡ record self.old { offers = without_mark self.old.offers } }
    {
        if let Some(Offer::Later) = self.offers.front() {
            let _mark = self.offers.pop_front();
            true
        } else {
            false
        }
    }

    /// Adds an offer at the end. If memory runs out, nothing changes.
    pub(crate) fn add(&mut self, offer: Offer) -> Result<(), NoMemory>
        requires { IsShort offer }
        ensures ok { OnOk result (self.new ≡ record self.old {
          offers = self.old.offers ++ offer ∷ [];
        }) }
        ensures err { OnErr result (self.new ≡ self.old) }
    {
        self.offers.reserve(1)?;
        self.offers.push_back(offer).unwrap();
        Ok(())
    }
}

// Whether there are that many replies before the first mark, or in all. It looks at no more of them, however many wait.
fn are_ready(wanted: usize, offers: &VecDeque<Offer>) -> bool
    ensures { result ≡ nat_le wanted (length (ready_replies offers.now.items)) }
{
    let mut ready = 0;
    while ready < wanted {
        let Some(Offer::Answer(_)) = offers.get(ready) else {
            return false;
        };
        ready += 1;
    }
    true
}

// Gives each prompt the next reply. Everything is allocated before the first reply is taken.
fn take_replies(
    alloc: Global,
    messages: &[Message],
    offers: &mut VecDeque<Offer>,
) -> Result<Vec<Reply>, NoMemory>
    requires { prompt_count «messages».now ≤ length (ready_replies offers.old.items) }
    ensures replies { IfOk result (λ replies. replies.items
        ≡ replies_from (ready_replies offers.old.items) «messages».now) }
    ensures taken { IfOk result (λ _. offers.new.items
        ≡ drop (prompt_count «messages».now) offers.old.items) }
    ensures err { OnErr result (offers.new.items ≡ offers.old.items) }
{
    let mut replies = Vec::with_capacity(alloc, messages.len())?;
    for message in messages {
        replies.push(take_reply(alloc, message, offers)).unwrap();
    }
    Ok(replies)
}

// The reply to one message: a prompt takes the first reply.
fn take_reply(alloc: Global, message: &Message, offers: &mut VecDeque<Offer>) -> Reply
    requires { IsTrue (is_prompt message.now.style) → 0 < length (ready_replies offers.old.items) }
    ensures { TakesReply message.now result offers.old.items offers.new.items }
{
    if !message.is_prompt() {
        return Reply {
            text: Text::new(alloc),
        };
    }
    match offers.pop_front() {
        Some(Offer::Answer(text)) => Reply { text },
        _ => unreachable!(),
    }
}
