ghost use Rattle.std.specs.Prelude.{◌≡◌, [], ◌∷◌, OnOk, OnErr};
ghost use Rattle.pam_room.specs.Module.{HasSet};

use crate::visits::Visits;
use conv_port::Messages;
use data_cleanup::{DataList, Ledger};
use env_list::EnvList;
use fail_delay::Delay;
use item_store::Items;
use pam_base::NoMemory;
use std::alloc::Global;

/// A transaction (`pam_start(3)`), without its conversation. It holds data, so it can't be dropped.
pub struct Transaction {
    pub items: Items,
    pub env: EnvList,
    pub datums: DataList,
    /// The longest delay requested since requests were last forgotten.
    pub delay: Delay,
    /// The messages that were sent to the conversation.
    pub said: Messages,
    /// The lines that were run.
    pub trail: Visits,
    /// Its number.
    pub handle: u32,
    /// The number of the module at work.
    pub serving: u32,
    /// Whether the conversation returned Again to the module at work.
    pub put_off: bool,
}

impl Transaction {
    ghost use Rattle.pam_room.specs.Plain.{plain_transaction};
    ghost use Rattle.pam_room.specs.State.{new_transaction};

    /// A transaction with this number: no item is set, no message sent, no line run. It does not
    /// allocate.
    pub fn new(alloc: Global, handle: u32) -> Self
        ensures { plain_transaction result ≡ new_transaction handle }
    {
        Transaction {
            items: Items::new(alloc),
            env: EnvList::new(alloc),
            datums: DataList::new(alloc, handle),
            delay: Delay::new(),
            said: Messages::new(alloc),
            trail: Visits::new(alloc),
            handle,
            serving: 0,
            put_off: false,
        }
    }

    /// Sets data of the module at work (`pam_set_data(3)`), as `DataList::set` does. If an
    /// allocation fails, all stays as it was.
    pub fn set_data(
        &mut self,
        alloc: Global,
        ledger: &mut Ledger,
        name: &[u8],
        payload: &[u8],
    ) -> Result<(), NoMemory>
        ensures ok { OnOk result (HasSet self.old.serving
            (record { name = name.now; payload = payload.now } ∷ [])
            self.old.datums ledger.old self.new.datums ledger.new) }
        ensures err { OnErr result ((self.new.datums ≡ self.old.datums)
            × (ledger.new ≡ ledger.old)) }
        ensures others { self.new ≡ record self.old { datums = self.new.datums } }
    {
        self.datums.set(alloc, ledger, self.serving, name, payload)
    }
}
