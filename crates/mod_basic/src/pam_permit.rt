ghost use Rattle.std.specs.Prelude.{◌≡◌, Some, OnOk, OnErr, codes};
ghost use Rattle.std.specs.Option.{option_or};
ghost use Rattle.pam_room.specs.Module.{keeps_files, length_note};
ghost use Rattle.mod_basic.specs.Permit.{permit_plays};

use conv_port::Conv;
use data_cleanup::{Datum, Receipt};
use pam_base::{Code, Func, ItemName, NoMemory};
use pam_outside::{Clock, Vault};
use pam_room::item_store::Items;
use pam_room::{Call, Module, Process, Transaction, get_item, laws, set_item, spend_by_length};
use std::alloc::Global;

/// `pam_permit(8)`: SUCCESS for all six functions. authenticate sets USER to `nobody` if it is
/// unset.
#[derive(Drop)]
pub struct Permit;

impl Permit {
    /// Creates the module, which has no state.
    pub fn new() -> Self {
        Permit
    }
}

impl Module for Permit {
    ghost label = { λ _. codes "pam_permit" };

    ghost plays = { λ _. permit_plays };

    ghost note = { λ _. length_note };

    ghost breaks = { λ _. keeps_files };

    fn name(&self) -> &[u8] {
        b"pam_permit"
    }

    fn serve(
        &self,
        _alloc: Global,
        call: &Call,
        transaction: &mut Transaction,
        _process: &mut Process,
        _conv: &mut dyn Conv,
        _vault: &mut dyn Vault,
        _moment: u64,
        _clock: &mut dyn Clock,
    ) -> Result<Code, NoMemory> {
        laws::files_stay();
        if call.func == Func::Authenticate {
            set_nobody(&mut transaction.items)?;
        }
        Ok(Code::Success)
    }

    fn tidy(&self, datum: Datum, status: u32) -> Receipt {
        spend_by_length(datum, status)
    }
}

// Sets USER to `nobody` if it is unset.
fn set_nobody(items: &mut Items) -> Result<(), NoMemory>
    ensures ok { OnOk result (items.new ≡ record items.old {
      user = option_or items.old.user (Some (codes "nobody"));
    }) }
    ensures err { OnErr result (items.new ≡ items.old) }
{
    match get_item(items, ItemName::User) {
        Some(_) => Ok(()),
        None => set_item(items, ItemName::User, b"nobody"),
    }
}
