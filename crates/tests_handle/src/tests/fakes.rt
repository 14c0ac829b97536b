ghost use Rattle.std.specs.Prelude.{codes};
ghost use Rattle.tests_handle.specs.Fakes.{establisher_code};
ghost use Rattle.pam_room.specs.Module.{answered, leaves_anything, length_note};

use conv_port::Conv;
use data_cleanup::{Datum, Receipt};
use mod_basic::{AtOnce, AtOnceModule, Probe};
use pam_base::{Code, NoMemory};
use pam_outside::{Clock, Vault, replace_file};
use pam_room::item_store::Items;
use pam_room::{Call, Module, Process, Transaction, laws, spend_by_length};
use std::alloc::Global;
use std::test::Fail;

// Returns by whether it is called with PAM_ESTABLISH_CRED.
struct Establisher;

impl AtOnce for Establisher {
    ghost label = { codes "establisher" };

    ghost code_of = { λ call items caller. establisher_code call };

    fn name() -> &'static [u8] {
        b"establisher"
    }

    fn code_of(call: &Call, _items: &Items, _caller: u32) -> Code {
        if call.has_flag(2) {
            Code::Success
        } else {
            Code::CredErr
        }
    }
}

// Sets module data three times, the second in place of the first, writes whether the time 5 has come into the file
// /stamp, and then runs out of memory.
#[derive(Drop)]
struct Forgetful;

impl Module for Forgetful {
    ghost use Rattle.pam_base.specs.declared.code.Code.TheVariants.{BufErr};

    ghost label = { λ _. codes "forgetful" };

    ghost plays = { λ _. λ call room held sight. answered BufErr room sight };

    ghost note = { λ _. length_note };

    ghost breaks = { λ _. leaves_anything };

    fn name(&self) -> &[u8] {
        b"forgetful"
    }

    fn serve(
        &self,
        alloc: Global,
        _call: &Call,
        transaction: &mut Transaction,
        process: &mut Process,
        _conv: &mut dyn Conv,
        vault: &mut dyn Vault,
        moment: u64,
        _clock: &mut dyn Clock,
    ) -> Result<Code, NoMemory> {
        laws::nothing_is_set();
        laws::setting_goes_on();
        laws::set_data_are_sets();
        transaction.set_data(alloc, &mut process.ledger, b"a", b"x")?;
        transaction.set_data(alloc, &mut process.ledger, b"a", b"yy")?;
        transaction.set_data(alloc, &mut process.ledger, b"b", b"z")?;
        let stamp = if moment < 5 { b"early" } else { b"ready" };
        let _written = replace_file(vault, alloc, b"/stamp", stamp);
        Err(NoMemory)
    }

    fn tidy(&self, datum: Datum, status: u32) -> Receipt {
        spend_by_length(datum, status)
    }
}

/// The modules of the tests: these two, and pam_probe, which sets data too.
pub fn fakes(alloc: Global) -> Result<Vec<Box<dyn Module>>, Fail> {
    let mut mods: Vec<Box<dyn Module>> = Vec::new(alloc);
    mods.push(Box::new(alloc, AtOnceModule::<Establisher>::new())?)?;
    mods.push(Box::new(alloc, Forgetful)?)?;
    mods.push(Box::new(alloc, Probe::new())?)?;
    Ok(mods)
}
