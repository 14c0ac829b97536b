ghost use Rattle.std.specs.Prelude.{◌≡◌, ◌≢◌, None, IsTrue, IfOk, OnOk};
ghost use Rattle.module_acts.specs.Accounts.{account_in, known_passwds};
ghost use Rattle.module_acts.specs.Act.{LooksTo, finds_account};
ghost use Rattle.module_acts.specs.Found.{plain_account};
ghost use Rattle.module_acts.specs.Seen.{user_seen};

use crate::accounts::{Account, Accounts};
use crate::speech::user_of;
use pam_base::NoMemory;
use pam_outside::Vault;
use pam_room::{Call, Process, Transaction};
use std::alloc::Global;

/// What a module gets that only decides: its call, the transaction and the process.
#[derive(Clone, Copy)]
pub struct CheckInput<'a> {
    pub alloc: Global,
    pub call: &'a Call<'a>,
    pub transaction: &'a Transaction,
    pub process: &'a Process,
}

/// The user's account. `/etc/passwd` is read here, unless it was read before.
pub fn account_of(
    seen: &CheckInput,
    accounts: &mut Accounts,
    vault: &mut dyn Vault,
) -> Result<Account, NoMemory>
    requires { seen.now.transaction.now.items.user ≢ None }
    ensures tells { vault_tells vault.new ≡ vault_tells vault.old }
    ensures files { IsTrue (vault_tells vault.old) →
        (vault_holds vault.new).files ≡ (vault_holds vault.old).files }
    ensures told { IsTrue (vault_tells vault.old) →
        IfOk result (λ account. LooksTo (finds_account (user_seen seen.now))
        (plain_account account) seen.now.process.now accounts.old (vault_holds vault.old)
        accounts.new (vault_holds vault.new)) }
    ensures read { OnOk result (accounts.new.passwds ≢ None) }
    ensures account { IfOk result (λ account. plain_account account
        ≡ account_in (user_seen seen.now) (known_passwds accounts.new)) }
{
    accounts.read_passwds(seen.alloc, vault, seen.process)?;
    let account = accounts.account(seen.alloc, user_of(seen.transaction))?;
    Ok(account)
}
