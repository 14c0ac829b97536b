ghost use Rattle.std.specs.Prelude.{codes};
ghost use Rattle.pam_room.specs.Module.{answered, leaves_anything, length_note};

use conv_port::Conv;
use pam_base::{Code, NoMemory};
use pam_outside::{Clock, Vault};
use pam_room::data_cleanup::{Datum, Receipt};
use pam_room::{Call, Module, Process, Transaction, laws, spend_by_length};
use std::alloc::Global;

/// A module that sets data three times, the second in place of the first, and then runs out of memory.
#[derive(Drop)]
pub struct Forgetful;

impl Module for Forgetful {
    ghost use Rattle.pam_base.specs.declared.code.Code.TheVariants.{BufErr};

    ghost label = { λ _. codes "forgetful" };

    ghost plays = { λ _. λ call room held sight. answered BufErr room sight };

    ghost note = { λ _. length_note };

    ghost breaks = { λ _. leaves_anything };

    fn name(&self) -> &[u8] {
        b"forgetful"
    }

    fn serve(
        &self,
        alloc: Global,
        _call: &Call,
        transaction: &mut Transaction,
        process: &mut Process,
        _conv: &mut dyn Conv,
        _vault: &mut dyn Vault,
        _moment: u64,
        _clock: &mut dyn Clock,
    ) -> Result<Code, NoMemory> {
        laws::nothing_is_set();
        laws::setting_goes_on();
        laws::set_data_are_sets();
        transaction.set_data(alloc, &mut process.ledger, b"a", b"x")?;
        transaction.set_data(alloc, &mut process.ledger, b"a", b"yy")?;
        transaction.set_data(alloc, &mut process.ledger, b"b", b"z")?;
        Err(NoMemory)
    }

    fn tidy(&self, datum: Datum, status: u32) -> Receipt {
        spend_by_length(datum, status)
    }
}
