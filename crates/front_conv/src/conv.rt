ghost use Rattle.std.specs.Prelude.{◌≡◌, ◌≢◌, ◌≤◌, [], length, IsTrue, IfOk, None, Err};
ghost use Rattle.pam_base.specs.Counts.{next_count};
ghost use Rattle.conv_port.specs.declared.conv.ConvFault.{ConvFault};
ghost use Rattle.conv_port.specs.Message.{AreReplies, HasPrompt, IsExchange};
ghost use Rattle.conv_port.specs.Conv.{Answers, TakesOffer};
ghost use Rattle.front_conv.specs.Front.{FaultsBy, Takes, Writes, outcome};
ghost use Rattle.front_conv.specs.Spelled.{IsSteady, answered, held, is_modelled};

use crate::cause::Cause;
use crate::exchange::exchange_text;
use crate::front_end::FrontEnd;
use crate::taking::take_replies;
use conv_port::{Conv, ConvFault, Message, Messages, Replies};
use pam_base::{MAX_TEXT, NoMemory, Text};
use pam_wire::answer_of;
use std::alloc::Global;
use std::marker::Model;
use std::snapshot::Snapshot;

/// A conversation with the front end of the calls, on transaction 1, over the two streams on which
/// calls and answers go. It waits for the replies. It is modelled if the front end is, and sends
/// nothing but replies; then it holds these, in order, and after them those that were offered.
#[derive(Drop)]
pub struct FrontConv<F: FrontEnd> {
    // Only for contracts: the front end as it was handed in.
    begun: Snapshot<F>,
    front: F,
    // Whether replies to an exchange may be lost; and, only for contracts, the front end before it.
    lost: Option<Snapshot<F>>,
    faults: u64,
    deferrals: u64,
    cause: Option<Cause>,
    // Only for contracts; but the code asks whether anything was offered.
    handed: Vec<Snapshot<Messages>>,
    offered: Vec<Snapshot<Text>>,
}

impl<F: FrontEnd> Model for FrontConv<F> {
    ghost use Rattle.std.specs.Prelude.{map, option_map};
    ghost use Rattle.front_conv.specs.Front.{FrontState};
    ghost use Rattle.front_conv.specs.Spelled.{IsKept};

    ghost Value = { FrontState F };

    ghost view = { λ c. record {
      begun = c.begun.value;
      front = c.front;
      lost = option_map (λ s. s.value) c.lost;
      faults = c.faults;
      deferrals = c.deferrals;
      cause = c.cause;
      handed = map (λ s. s.value) c.handed.items;
      offered = map (λ s. s.value) c.offered.items;
    } };

    ghost invariant = { λ c. IsKept F.front_tells F.incoming c.begun.value c.front
        (option_map (λ s. s.value) c.lost) };
}

impl<F: FrontEnd> FrontConv<F> {
    /// A conversation that hasn't failed yet.
    pub fn new(alloc: Global, front: F) -> Self
        ensures { result ≡ record {
          begun = front;
          front = front;
          lost = None;
          faults = 0;
          deferrals = 0;
          cause = None;
          handed = [];
          offered = [];
        } }
    {
        FrontConv {
            begun: Snapshot::of(&front),
            front,
            lost: None,
            faults: 0,
            deferrals: 0,
            cause: None,
            handed: Vec::new(alloc),
            offered: Vec::new(alloc),
        }
    }

    /// Why the last exchange gave no replies; None if it gave some, or there was none yet.
    pub fn cause(&self) -> Option<Cause>
        ensures { result ≡ self.now.cause }
    {
        self.cause
    }

    // One exchange. Once replies to one may be lost, there are no more.
    fn converse(&mut self, alloc: Global, messages: &Messages) -> Result<Replies, Cause>
        ensures replies { IfOk result (λ replies. AreReplies messages.now replies) }
        ensures shown { Writes result messages.now (F.outgoing self.old.front)
            (F.outgoing self.new.front) }
        ensures taken { Takes result messages.now (F.incoming self.old.front)
            (F.incoming self.new.front) }
        ensures told { IsTrue (is_modelled F.front_tells F.incoming self.old.begun) →
            Answers (answered result) messages.now (held F.incoming self.old)
            (held F.incoming self.new) }
        ensures others { self.new ≡ record self.old {
          front = self.new.front;
          lost = self.new.lost;
          handed = self.new.handed;
        } }
    {
        if self.lost.is_some() {
            return Err(Cause::NoMemory);
        }
        self.handed.reserve(1).map_err(|_| Cause::NoMemory)?;
        let before = Snapshot::of(&self.front);
        match exchange(alloc, messages.items(), &mut self.front) {
            Ok(replies) => {
                self.handed.push(Snapshot::of(messages)).unwrap();
                Ok(replies)
            }
            Err(cause) => {
                if !cause.loses_replies() {
                    return Err(cause);
                }
                self.lost = Some(before);
                match cause {
                    Cause::Ended if self.offered.is_empty() => {
                        self.handed.push(Snapshot::of(messages)).unwrap();
                        Err(Cause::Ended)
                    }
                    _ => Err(Cause::NoMemory),
                }
            }
        }
    }
}

impl<F: FrontEnd> Conv for FrontConv<F> {
    ghost use Rattle.front_conv.specs.Spelled.{held, is_modelled};

    ghost conv_tells = { λ c. is_modelled F.front_tells F.incoming c.begun };

    ghost conv_holds = { held F.incoming };

    ghost conv_faults = { λ c. c.faults };

    ghost conv_deferrals = { λ c. c.deferrals };

    /// Writes the exchange as an answer: a `say` line for each message, and `1 asks N` with the number of prompts. Then
    /// takes a frame for each prompt: one of kind 16 is its reply. One of kind 17 and an error of the writer are Gone.
    /// One of kind 18, a frame of another kind or transaction, the end of input, and an error of the reader are Again:
    /// nobody replied. It reads byte by byte, and no further. What was written and taken stays so. After an exchange in
    /// which an allocation failed or the input ended, replies may be lost, so every later one returns NoMemory.
    fn talk(&mut self, alloc: Global, messages: &Messages) -> Result<Replies, ConvFault>
        requires { IsExchange messages.now }
        ensures replies { IfOk result (λ replies. AreReplies messages.now replies) }
        ensures begun { self.new.begun ≡ self.old.begun }
        ensures told { IsTrue (is_modelled F.front_tells F.incoming self.old.begun) →
            Answers result messages.now (held F.incoming self.old) (held F.incoming self.new) }
        ensures faults { self.old.faults ≤ self.new.faults }
        ensures no_fault { result ≢ Err ConvFault.Gone → self.new.faults ≡ self.old.faults }
        ensures deferrals { self.old.deferrals ≤ self.new.deferrals }
        ensures prompt { result ≡ Err ConvFault.Again → HasPrompt messages.now }
        ensures no_deferral { result ≢ Err ConvFault.Again →
            self.new.deferrals ≡ self.old.deferrals }
        ensures one_fault { result ≡ Err ConvFault.Gone →
            self.new.faults ≡ next_count self.old.faults }
        ensures one_deferral { result ≡ Err ConvFault.Again →
            self.new.deferrals ≡ next_count self.old.deferrals }
        ensures cause { FaultsBy self.new.cause result }
        ensures shown { Writes (outcome self.new.cause result) messages.now
            (F.outgoing self.old.front) (F.outgoing self.new.front) }
        ensures taken { Takes (outcome self.new.cause result) messages.now
            (F.incoming self.old.front) (F.incoming self.new.front) }
    {
        match self.converse(alloc, messages) {
            Ok(replies) => {
                self.cause = None;
                Ok(replies)
            }
            Err(cause) => {
                self.cause = Some(cause);
                let fault = cause.fault();
                match fault {
                    ConvFault::Gone => self.faults = self.faults.saturating_add(1),
                    ConvFault::Again => self.deferrals = self.deferrals.saturating_add(1),
                    ConvFault::NoMemory => {}
                }
                Err(fault)
            }
        }
    }

    /// A front end replies only when it is asked, so the text is no reply to a later exchange.
    fn offer(&mut self, alloc: Global, text: &[u8]) -> Result<(), NoMemory>
        requires { length text.now ≤ MAX_TEXT }
        ensures told { IsTrue (is_modelled F.front_tells F.incoming self.old.begun) →
            TakesOffer result text.now (held F.incoming self.old) (held F.incoming self.new) }
        ensures nothing { self.new ≡ record self.old { offered = self.new.offered } }
    {
        let copy = Text::from_bytes(alloc, text)?;
        self.offered.push(Snapshot::of(&copy))?;
        Ok(())
    }
}

// Writes an exchange and takes the replies.
fn exchange<F: FrontEnd>(
    alloc: Global,
    messages: &[Message],
    front: &mut F,
) -> Result<Replies, Cause>
    ensures replies { IfOk result (λ replies. AreReplies «messages».now replies) }
    ensures shown { Writes result «messages».now (F.outgoing front.old) (F.outgoing front.new) }
    ensures taken { Takes result «messages».now (F.incoming front.old) (F.incoming front.new) }
    ensures tells { F.front_tells front.new ≡ F.front_tells front.old }
    ensures steady { IsTrue (F.front_tells front.old) → IsSteady result }
{
    let asked = exchange_text(alloc, messages)?;
    let answer = answer_of(alloc, asked.as_bytes())?;
    front.send(answer.bytes()).map_err(|_| Cause::Unwritten)?;
    take_replies(alloc, messages, front)
}
