ghost use Rattle.std.specs.Prelude.{◌≡◌};
ghost use Rattle.pam_room.specs.Plain.{plain_transaction};
ghost use Rattle.pam_room.specs.State.{new_transaction};

use crate::transaction::Transaction;
use conv_port::Conv;
use std::alloc::Global;

/// A transaction and its conversation.
pub struct Room {
    pub transaction: Transaction,
    pub conv: Box<dyn Conv>,
}

impl Room {
    /// A new transaction with this number (`Transaction::new`), and its conversation. It does not
    /// allocate.
    pub fn new(alloc: Global, handle: u32, conv: Box<dyn Conv>) -> Self
        ensures transaction { plain_transaction result.transaction ≡ new_transaction handle }
        ensures conv { result.conv ≡ conv }
    {
        Room {
            transaction: Transaction::new(alloc, handle),
            conv,
        }
    }
}

/// Names what a room holds and what is modelled of its conversation, for contracts.
pub trait RoomTold {
    ghost use Rattle.std.specs.Prelude.{Bool};
    ghost use Rattle.pam_room.specs.State.{PlainRoom};

    /// Whether the conversation is modelled.
    ghost tells: { Self → Bool };

    ghost plain: { Self → PlainRoom };
}

impl RoomTold for Room {
    ghost use Rattle.pam_room.specs.Plain.{plain_room};

    ghost tells = { λ r. (Conv-box r.conv).conv_tells r.conv.value };

    ghost plain = { plain_room (λ b. (Conv-box b).conv_holds b.value) };
}
