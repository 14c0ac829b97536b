ghost use Rattle.std.specs.Prelude.{◌≡◌};
ghost use Rattle.pam_library.specs.Slots.{is_open};

use crate::outcome::Outcome;
use conv_port::Conv;
use pam_base::NoMemory;
use pam_handle::Handle;

/// A slot for a transaction: closed, with a conversation, or open.
pub enum Slot {
    Closed(Box<dyn Conv>),
    Open(Handle),
}

/// A slot after a call in it, and the result of the call.
pub struct Stepped {
    pub slot: Slot,
    pub outcome: Result<Outcome, NoMemory>,
}

/// Names what a slot holds and whether its conversation is modelled, for contracts.
pub trait SlotTold {
    ghost use Rattle.std.specs.Prelude.{Bool};
    ghost use Rattle.pam_library.specs.Slots.{PlainSlot};

    /// Whether its conversation is modelled.
    ghost tells: { Self → Bool };

    ghost plain: { Self → PlainSlot };
}

impl SlotTold for Slot {
    ghost use Rattle.pam_library.specs.Plain.{plain_slot, slot_tells};

    ghost tells = { slot_tells (λ b. (Conv-box b).conv_tells b.value) };

    ghost plain = { plain_slot (λ b. (Conv-box b).conv_holds b.value) };
}

impl Slot {
    pub fn is_open(&self) -> bool
        ensures { result ≡ is_open (⟦<Slot as SlotTold>⟧.plain self.now) }
    {
        match self {
            Slot::Closed(_) => false,
            Slot::Open(_) => true,
        }
    }
}
