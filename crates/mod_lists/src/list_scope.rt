ghost use Rattle.std.specs.Prelude.{◌≡◌, ◌≢◌, None, IsTrue, IfOk};
ghost use Rattle.std.specs.Str.{bytes_eq};
ghost use Rattle.module_acts.specs.Accounts.{entry_known, known_groups, known_passwds};
ghost use Rattle.module_acts.specs.Act.{LooksTo};
ghost use Rattle.module_acts.specs.Seen.{user_seen};
ghost use Rattle.mod_lists.specs.ListSettings.{plain_apply};
ghost use Rattle.mod_lists.specs.Listfile.{applies, applies_in_groups, yes_or_no};

use crate::list_settings::Apply;
use account_db::is_in_group;
use module_acts::{Accounts, CheckInput, user_of};
use pam_base::NoMemory;
use pam_outside::Vault;

/// Whether a list applies to the user, as far as that can be read.
#[derive(Clone, Copy, Debug)]
pub enum Applies {
    Yes,
    No,
    Unknown,
}

/// Whether the list applies to the user.
pub(crate) fn list_applies(
    seen: &CheckInput,
    apply: Apply,
    accounts: &mut Accounts,
    vault: &mut dyn Vault,
) -> Result<Applies, NoMemory>
    requires { seen.now.transaction.now.items.user ≢ None }
    ensures tells { vault_tells vault.new ≡ vault_tells vault.old }
    ensures files { IsTrue (vault_tells vault.old) →
        (vault_holds vault.new).files ≡ (vault_holds vault.old).files }
    ensures told { IsTrue (vault_tells vault.old) →
        IfOk result (λ value. LooksTo (applies (plain_apply apply.entry) (user_seen seen.now)) value
        seen.now.process.now accounts.old (vault_holds vault.old) accounts.new
        (vault_holds vault.new)) }
{
    let user = user_of(seen.transaction);
    match apply {
        Apply::Everyone => Ok(Applies::Yes),
        Apply::One(name) => Ok(yes_or_no(is_same(name, user))),
        Apply::Members(name) => {
            accounts.read_passwds(seen.alloc, vault, seen.process)?;
            match accounts.passwds() {
                None => return Ok(Applies::Unknown),
                Some(_) => {}
            }
            accounts.read_groups(seen.alloc, vault, seen.process)?;
            let applies = applies_in_groups(seen, name, accounts)?;
            Ok(applies)
        }
    }
}

fn is_same(one: &[u8], other: &[u8]) -> bool
    ensures { result ≡ bytes_eq one.now other.now }
{
    one == other
}

fn yes_or_no(holds: bool) -> Applies
    ensures { result ≡ yes_or_no holds }
{
    if holds { Applies::Yes } else { Applies::No }
}

// Whether the user is in the group, by files that have been read.
fn applies_in_groups(
    seen: &CheckInput,
    name: &[u8],
    accounts: &Accounts,
) -> Result<Applies, NoMemory>
    requires user { seen.now.transaction.now.items.user ≢ None }
    requires passwds { accounts.now.passwds ≢ None }
    requires groups { accounts.now.groups ≢ None }
    ensures { IfOk result (λ applies. applies ≡ applies_in_groups name.now (user_seen seen.now)
        (entry_known (user_seen seen.now) (known_passwds accounts.now)) (known_groups accounts.now)) }
{
    let user = user_of(seen.transaction);
    let entry = accounts.entry(seen.alloc, user)?;
    match accounts.groups() {
        Some(groups) => Ok(yes_or_no(is_in_group(name, user, entry.as_ref(), groups))),
        None => Ok(Applies::Unknown),
    }
}
