ghost use Rattle.std.specs.Prelude.{◌≡◌, ℕ, IfOk, OnOk, OnErr, Some};
ghost use Rattle.conv_port.specs.Conv.{ConvState};
ghost use Rattle.pam_room.specs.data_cleanup.specs.Sets.{Sets};
ghost use Rattle.pam_outside.specs.Files.{VaultState};
ghost use Rattle.pam_outside.specs.Time.{ClockState};
ghost use Rattle.pam_room.specs.State.{PlainProcess};
ghost use Rattle.pam_room.specs.Plain.{plain_process};
ghost use Rattle.module_acts.specs.Act.{Reaches};
ghost use Rattle.module_acts.specs.Returns.{Follows, scene_of_parts};
ghost use Rattle.module_acts.specs.Steps.{answers_keeping, requests_delay, sets_item};
ghost use Rattle.module_acts.specs.OnlyTalks.{OnlyTalks};

use pam_base::{Code, ItemName, NoMemory};
use pam_room::{Process, Transaction, laws, set_item};
use std::alloc::Global;

/// Requests a delay, in microseconds (`pam_fail_delay(3)`).
pub fn request_delay(transaction: &mut Transaction, micros: u32)
    ensures told { (conv : ConvState) (vault : VaultState) (clock : ClockState)
        (process : PlainProcess) →
        Reaches (requests_delay micros) (scene_of_parts transaction.old conv vault clock process)
        (scene_of_parts transaction.new conv vault clock process) }
    ensures talks { OnlyTalks transaction.old transaction.new }
    ensures items { transaction.new.items ≡ transaction.old.items }
{
    transaction.delay.request(micros);
}

/// Sets AUTHTOK (`pam_set_item(3)`). If an allocation fails, all stays as it was.
pub fn set_token(transaction: &mut Transaction, token: &[u8]) -> Result<(), NoMemory>
    ensures told { (conv : ConvState) (vault : VaultState) (clock : ClockState)
        (process : PlainProcess) →
        OnOk result (Reaches (sets_item ItemName.AuthTok token.now)
        (scene_of_parts transaction.old conv vault clock process)
        (scene_of_parts transaction.new conv vault clock process)) }
    ensures items { OnOk result (transaction.new.items
        ≡ record transaction.old.items { auth_tok = Some token.now }) }
    ensures err { OnErr result (transaction.new ≡ transaction.old) }
    ensures talks { OnlyTalks transaction.old transaction.new }
{
    set_item(&mut transaction.items, ItemName::AuthTok, token)?;
    Ok(())
}

/// Sets module data (`pam_set_data(3)`), and returns the code. If an allocation fails, nothing is
/// set.
pub fn answer_and_keep(
    alloc: Global,
    transaction: &mut Transaction,
    process: &mut Process,
    name: &[u8],
    payload: &[u8],
    code: Code,
) -> Result<Code, NoMemory>
    requires { transaction.old.datums.handle ≡ transaction.old.handle }
    ensures told { (conv : ConvState) (vault : VaultState) (clock : ClockState) →
        IfOk result (λ answer. Follows (answers_keeping
        (record { name = name.now; payload = payload.now }) code)
        (scene_of_parts transaction.old conv vault clock (plain_process process.old)) answer
        (scene_of_parts transaction.new conv vault clock (plain_process process.new))) }
    ensures err { OnErr result ((transaction.new ≡ transaction.old)
        × (process.new ≡ process.old)) }
    ensures sets { Sets transaction.old.serving transaction.old.datums process.old.ledger
        transaction.new.datums process.new.ledger }
    ensures data_handle { transaction.new.datums.handle ≡ transaction.old.datums.handle }
    ensures others { transaction.new ≡ record transaction.old { datums = transaction.new.datums } }
    ensures process { process.new ≡ record process.old { ledger = process.new.ledger } }
{
    laws::set_data_are_sets();
    transaction.set_data(alloc, &mut process.ledger, name, payload)?;
    Ok(code)
}
