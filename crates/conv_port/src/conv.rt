ghost use Rattle.std.specs.Prelude.{◌≡◌, ◌≢◌, ◌≤◌, ℕ, Bool, length, IsTrue, IfOk, Err};
ghost use Rattle.pam_base.specs.Counts.{Rose};
ghost use Rattle.conv_port.specs.Message.{AreReplies, HasPrompt, IsExchange};
ghost use Rattle.conv_port.specs.Conv.{Answers, ConvState, TakesOffer};

use crate::message::{Messages, Replies};
use pam_base::{MAX_TEXT, NoMemory};
use std::alloc::Global;

/// Why an exchange gives no replies.
#[derive(Clone, Copy, Debug, PartialEq, Eq)]
pub enum ConvFault {
    NoMemory,
    /// The user can't be reached, or gives no more replies.
    Gone,
    /// There is no reply yet: the exchange has to be repeated later (`PAM_CONV_AGAIN`).
    Again,
}

impl From<NoMemory> for ConvFault {
    ghost use Rattle.std.specs.Prelude.{◌≡◌};
    ghost use Rattle.conv_port.specs.declared.conv.ConvFault.{ConvFault};
    ghost use Rattle.conv_port.specs.declared.conv.ConvFault.TheVariants as faults;

    ghost from_gives = { λ _ e. e ≡ faults.NoMemory };

    fn from(_: NoMemory) -> Self {
        ConvFault::NoMemory
    }
}

/// How an application answers the questions of modules (`struct pam_conv` in `pam_conv(3)`).
pub trait Conv: Drop {
    /// Whether contracts know its content: it is modelled. This never changes.
    ghost conv_tells: { Self → Bool };

    /// If it is modelled: the offers that aren't taken yet, whether it waits if there are too few,
    /// and what was passed to it.
    ghost conv_holds: { Self → ConvState };

    /// How often it returned Gone. The count never falls, and stops at 2^64 - 1.
    ghost conv_faults: { Self → ℕ };

    /// How often it returned Again. The count never falls, and stops at 2^64 - 1.
    ghost conv_deferrals: { Self → ℕ };

    /// One exchange, of 1 to 32 messages (PAM_MAX_NUM_MSG) of at most 512 bytes each. It gives one
    /// reply for each message, of at most 512 bytes, and the empty one for a message that isn't a
    /// prompt. Gone is returned only if the count of faults rose, Again only if a message is a
    /// prompt and the count of deferrals rose, and neither count rises otherwise. The result of a
    /// modelled conversation depends only on its content, and the messages are added to what was
    /// passed to it, whatever it returns, unless memory runs out; then its content stays.
    fn talk(&mut self, alloc: Global, messages: &Messages) -> Result<Replies, ConvFault>
        requires { IsExchange messages.now }
        ensures replies { IfOk result (λ replies. AreReplies messages.now replies) }
        ensures tells { conv_tells self.new ≡ conv_tells self.old }
        ensures told { IsTrue (conv_tells self.old) →
            Answers result messages.now (conv_holds self.old) (conv_holds self.new) }
        ensures faults { conv_faults self.old ≤ conv_faults self.new }
        ensures gone { result ≡ Err ConvFault.Gone →
            Rose (conv_faults self.old) (conv_faults self.new) }
        ensures no_fault { result ≢ Err ConvFault.Gone →
            conv_faults self.new ≡ conv_faults self.old }
        ensures deferrals { conv_deferrals self.old ≤ conv_deferrals self.new }
        ensures again { result ≡ Err ConvFault.Again →
            Rose (conv_deferrals self.old) (conv_deferrals self.new) }
        ensures prompt { result ≡ Err ConvFault.Again → HasPrompt messages.now }
        ensures no_deferral { result ≢ Err ConvFault.Again →
            conv_deferrals self.new ≡ conv_deferrals self.old };

    /// Offers a reply of at most 512 bytes for a later prompt. A modelled conversation that doesn't wait takes the six
    /// bytes `\later` as a mark, which makes one exchange return Again; a modelled one adds the offer at the end, and
    /// if memory runs out its content stays. Neither count changes.
    fn offer(&mut self, alloc: Global, text: &[u8]) -> Result<(), NoMemory>
        requires { length text.now ≤ MAX_TEXT }
        ensures tells { conv_tells self.new ≡ conv_tells self.old }
        ensures told { IsTrue (conv_tells self.old) →
            TakesOffer result text.now (conv_holds self.old) (conv_holds self.new) }
        ensures faults { conv_faults self.new ≡ conv_faults self.old }
        ensures deferrals { conv_deferrals self.new ≡ conv_deferrals self.old };
}

/// `Conv::talk` of a borrowed conversation.
pub fn talk_with(
    conv: &mut dyn Conv,
    alloc: Global,
    messages: &Messages,
) -> Result<Replies, ConvFault>
    requires { IsExchange messages.now }
    ensures replies { IfOk result (λ replies. AreReplies messages.now replies) }
    ensures tells { conv_tells conv.new ≡ conv_tells conv.old }
    ensures told { IsTrue (conv_tells conv.old) →
        Answers result messages.now (conv_holds conv.old) (conv_holds conv.new) }
    ensures faults { conv_faults conv.old ≤ conv_faults conv.new }
    ensures gone { result ≡ Err ConvFault.Gone →
        Rose (conv_faults conv.old) (conv_faults conv.new) }
    ensures no_fault { result ≢ Err ConvFault.Gone → conv_faults conv.new ≡ conv_faults conv.old }
    ensures deferrals { conv_deferrals conv.old ≤ conv_deferrals conv.new }
    ensures again { result ≡ Err ConvFault.Again →
        Rose (conv_deferrals conv.old) (conv_deferrals conv.new) }
    ensures prompt { result ≡ Err ConvFault.Again → HasPrompt messages.now }
    ensures no_deferral { result ≢ Err ConvFault.Again →
        conv_deferrals conv.new ≡ conv_deferrals conv.old }
{
    conv.talk(alloc, messages)
}

/// `Conv::offer` of a borrowed conversation.
pub fn offer_to(conv: &mut dyn Conv, alloc: Global, text: &[u8]) -> Result<(), NoMemory>
    requires { length text.now ≤ MAX_TEXT }
    ensures tells { conv_tells conv.new ≡ conv_tells conv.old }
    ensures told { IsTrue (conv_tells conv.old) →
        TakesOffer result text.now (conv_holds conv.old) (conv_holds conv.new) }
    ensures faults { conv_faults conv.new ≡ conv_faults conv.old }
    ensures deferrals { conv_deferrals conv.new ≡ conv_deferrals conv.old }
{
    conv.offer(alloc, text)
}
