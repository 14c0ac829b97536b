ghost use Rattle.std.specs.Prelude.{◌≡◌, IfOk, Some, codes};
ghost use Rattle.conv_port.specs.Conv.{ConvState};
ghost use Rattle.data_cleanup.specs.Sets.{Sets};
ghost use Rattle.pam_outside.specs.Files.{VaultState};
ghost use Rattle.pam_outside.specs.Time.{ClockState};
ghost use Rattle.pam_room.specs.Module.{keeps_files, length_note, named_data};
ghost use Rattle.pam_room.specs.Plain.{plain_process};
ghost use Rattle.pam_room.specs.State.{Scene};
ghost use Rattle.module_acts.specs.Act.{Act};
ghost use Rattle.module_acts.specs.Returns.{Returns, Follows, scene_of_parts};
ghost use Rattle.mod_unix.specs.declared.authenticate.Authenticated.{Authenticated};
ghost use Rattle.mod_unix.specs.Authenticate.{keeps_for_setcred};
ghost use Rattle.mod_unix.specs.Unix.{code_in, kept_code, payload_named, unix_plays};

use crate::account::check_account;
use crate::authenticate::{Authenticated, authenticate};
use crate::change::change_token;
use crate::job::Job;
use conv_port::Conv;
use data_cleanup::{DataList, Datum, Receipt};
use module_acts::{answer_and_keep, code_or_conv_err, laws};
use pam_base::{Code, ConvErr, Func, NoMemory, Refuse, code_number, code_of};
use pam_outside::{Clock, Vault};
use pam_room::{Call, Module, Process, Transaction, spend_by_length};
use std::alloc::Global;

/// The name of the module data in which the code of authenticate is kept for setcred.
const SETCRED_RETURN: &[u8] = b"unix_setcred_return";

/// `pam_unix(8)`: the user's password in `passwd` and `shadow`.
#[derive(Drop)]
pub struct Unix;

impl Unix {
    /// Creates the module, which has no state.
    pub fn new() -> Self {
        Unix
    }
}

impl Module for Unix {
    ghost label = { λ _. codes "pam_unix" };

    ghost plays = { λ _. unix_plays };

    ghost note = { λ _. length_note };

    ghost breaks = { λ _. keeps_files };

    fn name(&self) -> &[u8] {
        b"pam_unix"
    }

    fn serve(
        &self,
        alloc: Global,
        call: &Call,
        transaction: &mut Transaction,
        process: &mut Process,
        conv: &mut dyn Conv,
        vault: &mut dyn Vault,
        moment: u64,
        clock: &mut dyn Clock,
    ) -> Result<Code, NoMemory> {
        module_acts::laws::act_steps();
        laws::acting();
        laws::talking();
        pam_room::laws::files_stay();
        let job = Job {
            alloc,
            call,
            process: &*process,
            moment,
        };
        match call.func {
            Func::Authenticate => {
                let answer = authenticate(&job, transaction, conv, vault);
                keep_for_setcred(alloc, transaction, process, answer)
            }
            Func::SetCred => Ok(kept_code(&transaction.datums)),
            Func::AcctMgmt => code_or_conv_err(check_account(&job, transaction, conv, vault)),
            Func::ChAuthTok => {
                code_or_conv_err(change_token(&job, transaction, conv, vault, clock))
            }
            Func::OpenSession => Ok(Code::Success),
            Func::CloseSession => Ok(Code::Success),
        }
    }

    fn tidy(&self, datum: Datum, status: u32) -> Receipt {
        spend_by_length(datum, status)
    }
}

// Returns a code, and keeps it for setcred.
fn keep_for_setcred(
    alloc: Global,
    transaction: &mut Transaction,
    process: &mut Process,
    answer: Result<Authenticated, Refuse<ConvErr>>,
) -> Result<Code, NoMemory>
    requires { transaction.old.datums.handle ≡ transaction.old.handle }
    ensures told { (step : (Authenticated → Act) → Act) (s : Scene) (conv : ConvState)
        (vault : VaultState) (clock : ClockState) →
        Returns answer step s (scene_of_parts transaction.old conv vault clock
        (plain_process process.old)) →
        IfOk result (λ code. Follows (step keeps_for_setcred) s code
        (scene_of_parts transaction.new conv vault clock (plain_process process.new))) }
    ensures sets { Sets transaction.old.serving transaction.old.datums process.old.ledger
        transaction.new.datums process.new.ledger }
    ensures data_handle { transaction.new.datums.handle ≡ transaction.old.datums.handle }
    ensures others { transaction.new ≡ record transaction.old { datums = transaction.new.datums } }
    ensures process { process.new ≡ record process.old { ledger = process.new.ledger } }
{
    module_acts::laws::act_steps();
    laws::talking();
    match answer {
        Ok(answer) => match answer {
            Authenticated::Kept(code) => {
                let number = [code_number(code) as u8];
                answer_and_keep(alloc, transaction, process, SETCRED_RETURN, &number, code)
            }
            Authenticated::Unkept(code) => Ok(code),
        },
        Err(refused) => match refused {
            Refuse::NoMemory => Err(NoMemory),
            Refuse::Named(_) => Ok(Code::ConvErr),
        },
    }
}

// The code that was kept for setcred.
fn kept_code(datums: &DataList) -> Code
    ensures { result ≡ kept_code (named_data datums.now.live) }
{
    match datums.get(SETCRED_RETURN) {
        Ok(payload) => code_in(payload),
        Err(_) => Code::Success,
    }
}

fn code_in(payload: &[u8]) -> Code
    ensures { result ≡ code_in (Some payload.now) }
{
    match payload {
        [number] => code_of(u32::from(*number)).unwrap_or(Code::Success),
        _ => Code::Success,
    }
}
