ghost use Rattle.std.specs.Prelude.{◌≡◌, IsTrue};
ghost use Rattle.pam_outside.specs.Files.{VaultState};
ghost use Rattle.pam_outside.specs.Time.{ClockState};
ghost use Rattle.pam_room.specs.Plain.{plain_process};
ghost use Rattle.pam_room.specs.State.{PlainProcess, PlainRoom, scene_of};
ghost use Rattle.module_acts.specs.Act.{Yields};
ghost use Rattle.module_acts.specs.Returns.{Returns, scene_of_parts};
ghost use Rattle.module_acts.specs.OnlyTalks.{OnlyTalks};
ghost use Rattle.mod_unix.specs.Account.{account_by, checks_account};

use crate::aging::{aged, day_of};
use crate::job::Job;
use crate::look::{KnownPassword, look_up};
use conv_port::Conv;
use module_acts::{laws, require_user, user_of};
use pam_base::{Code, ConvErr, Refuse};
use pam_outside::Vault;
use pam_room::Transaction;

/// Checks whether the account and its password may still be used.
pub(crate) fn check_account(
    job: &Job,
    transaction: &mut Transaction,
    conv: &mut dyn Conv,
    vault: &mut dyn Vault,
) -> Result<Code, Refuse<ConvErr>>
    ensures conv_tells { conv_tells conv.new ≡ conv_tells conv.old }
    ensures vault_tells { vault_tells vault.new ≡ vault_tells vault.old }
    ensures files { IsTrue (vault_tells vault.old) →
        (vault_holds vault.new).files ≡ (vault_holds vault.old).files }
    ensures told { IsTrue (conv_tells conv.old) → IsTrue (vault_tells vault.old) →
        (clock : ClockState) → job.now.moment ≡ clock.moment →
        Returns result checks_account
        (scene_of_parts transaction.old (conv_holds conv.old) (vault_holds vault.old)
        clock (plain_process job.now.process.now))
        (scene_of_parts transaction.new (conv_holds conv.new) (vault_holds vault.new)
        clock (plain_process job.now.process.now)) }
    ensures talks { OnlyTalks transaction.old transaction.new }
{
    require_user(job.alloc, transaction, conv)?;
    let look = look_up(job.alloc, vault, job.process, user_of(transaction))?;
    Ok(account_by(&look, job.moment))
}

// The code, given what is known of the user's password.
fn account_by(look: &KnownPassword, moment: u64) -> Code
    ensures told { (clock : ClockState) → moment ≡ clock.moment →
        (room : PlainRoom) (vault : VaultState) (process : PlainProcess) →
        Yields result (account_by look.now) (scene_of room vault clock process)
        (scene_of room vault clock process) }
{
    laws::acting();
    match look {
        KnownPassword::Unknown => Code::UserUnknown,
        KnownPassword::Unavailable => Code::AuthinfoUnavail,
        KnownPassword::Plain(_) => Code::Success,
        KnownPassword::Shadowed(entry) => aged(day_of(moment), entry),
    }
}
