ghost use Rattle.std.specs.Prelude.{◌≡◌, IsTrue, IfOk};
ghost use Rattle.pam_room.specs.Module.{keeps_files, length_note};

use crate::asked::WorkInput;
use crate::ending::code_or_conv_err;
use crate::laws;
use crate::laws::no_data_are_set;
use crate::work::Work;
use conv_port::Conv;
use pam_base::{Code, NoMemory};
use pam_outside::{Clock, Vault};
use pam_room::data_cleanup::{Datum, Receipt};
use pam_room::{Call, Module, Process, Transaction, spend_by_length};
use std::alloc::Global;
use std::marker::PhantomData;

/// The module of such work.
#[derive(Drop)]
pub struct WorkModule<T: Work> {
    of: PhantomData<T>,
}

impl<T: Work> WorkModule<T> {
    /// Creates the module.
    pub fn new() -> Self {
        WorkModule { of: PhantomData }
    }
}

impl<T: Work> Module for WorkModule<T> {
    ghost label = { λ _. T.label };

    ghost plays = { λ _. T.plays };

    ghost note = { λ _. length_note };

    ghost breaks = { λ _. keeps_files };

    fn name(&self) -> &[u8] {
        T::name()
    }

    fn serve(
        &self,
        alloc: Global,
        call: &Call,
        transaction: &mut Transaction,
        process: &mut Process,
        conv: &mut dyn Conv,
        vault: &mut dyn Vault,
        moment: u64,
        _clock: &mut dyn Clock,
    ) -> Result<Code, NoMemory> {
        laws::act_steps();
        no_data_are_set();
        pam_room::laws::files_stay();
        T::plays_so();
        match T::at_once(call) {
            Some(code) => Ok(code),
            None => {
                let asked = WorkInput {
                    alloc,
                    call,
                    process: &*process,
                };
                let answer = T::work(&asked, transaction, conv, vault, moment);
                code_or_conv_err(answer)
            }
        }
    }

    fn tidy(&self, datum: Datum, status: u32) -> Receipt {
        spend_by_length(datum, status)
    }
}
