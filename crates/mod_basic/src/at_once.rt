ghost use Rattle.std.specs.Prelude.{◌≡◌, ℕ, List};
ghost use Rattle.pam_base.specs.declared.code.Code.{Code};
ghost use Rattle.pam_room.specs.Call.{PlainCall};
ghost use Rattle.pam_room.specs.Plain.{plain_call};
ghost use Rattle.pam_room.specs.item_store.specs.Items.{ItemTexts};
ghost use Rattle.pam_room.specs.Module.{length_note, never_breaks};
ghost use Rattle.mod_basic.specs.AtOnce.{plays_at_once};

use conv_port::Conv;
use data_cleanup::{Datum, Receipt};
use pam_base::{Code, NoMemory};
use pam_outside::{Clock, Vault};
use pam_room::item_store::Items;
use pam_room::{Call, Module, Process, Transaction, spend_by_length};
use std::alloc::Global;
use std::marker::PhantomData;

/// A module that decides at once: by its call, the items and the caller's user ID.
pub trait AtOnce {
    /// Its name.
    ghost label: { List ℕ };

    /// The code of a call.
    ghost code_of: { PlainCall → ItemTexts → ℕ → Code };

    /// The name by which a line finds it: the last part of a path, without `.so`.
    fn name() -> &'static [u8]
        ensures { result.now ≡ label };

    /// The code of a call.
    fn code_of(call: &Call, items: &Items, caller: u32) -> Code
        ensures { result ≡ code_of (plain_call call.now) items.now caller };
}

/// The module of such a decision. It has no state and does not allocate.
#[derive(Drop)]
pub struct AtOnceModule<T: AtOnce> {
    of: PhantomData<T>,
}

impl<T: AtOnce> AtOnceModule<T> {
    /// Creates the module.
    pub fn new() -> Self {
        AtOnceModule { of: PhantomData }
    }
}

impl<T: AtOnce> Module for AtOnceModule<T> {
    ghost label = { λ _. T.label };

    ghost plays = { λ _. plays_at_once T.code_of };

    ghost note = { λ _. length_note };

    ghost breaks = { λ _. never_breaks };

    fn name(&self) -> &[u8] {
        T::name()
    }

    fn serve(
        &self,
        _alloc: Global,
        call: &Call,
        transaction: &mut Transaction,
        process: &mut Process,
        _conv: &mut dyn Conv,
        _vault: &mut dyn Vault,
        _moment: u64,
        _clock: &mut dyn Clock,
    ) -> Result<Code, NoMemory> {
        Ok(T::code_of(call, &transaction.items, process.caller))
    }

    fn tidy(&self, datum: Datum, status: u32) -> Receipt {
        spend_by_length(datum, status)
    }
}
