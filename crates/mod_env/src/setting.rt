ghost use Rattle.std.specs.Prelude.{◌≡◌, ◌≢◌, None, true, IsTrue, IfOk, OnOk};
ghost use Rattle.std.specs.Option.{option_copied};
ghost use Rattle.conv_port.specs.Conv.{ConvState};
ghost use Rattle.pam_outside.specs.Files.{VaultState};
ghost use Rattle.pam_outside.specs.Time.{ClockState};
ghost use Rattle.module_acts.specs.pam_room.specs.declared.process.Process.{Process};
ghost use Rattle.module_acts.specs.Act.{Yields, Reaches, sees_items, scene_at};
ghost use Rattle.module_acts.specs.YieldsWith.{YieldsWith};
ghost use Rattle.mod_env.specs.Env.{finds_entry, entry_known, entry_seen, looks_if, put_in, puts_all, puts_env, sets_all, sets_by, sets_variable};
ghost use Rattle.mod_env.specs.Puts.{Puts};

use crate::conf::{Entries, EnvLine};
use crate::expand::{Expansion, Sources, asks_account, expansion_of};
use account_db::Passwd;
use env_list::EnvList;
use item_store::Items;
use module_acts::pam_room::{Transaction, get_item};
use module_acts::{Account, Accounts, WorkInput, laws};
use pam_base::{ItemName, NoMemory, Refuse, Texts};
use pam_outside::Vault;
use std::alloc::Global;

/// Sets the variables in order; false if a value is too long: those before it are set.
pub(crate) fn set_all(
    asked: &WorkInput,
    entries: &Entries,
    transaction: &mut Transaction,
    accounts: &mut Accounts,
    vault: &mut dyn Vault,
) -> Result<bool, NoMemory>
    ensures tells { vault_tells vault.new ≡ vault_tells vault.old }
    ensures files { IsTrue (vault_tells vault.old) →
        (vault_holds vault.new).files ≡ (vault_holds vault.old).files }
    ensures told { IsTrue (vault_tells vault.old) →
        (conv : ConvState) (clock : ClockState) →
        IfOk result (λ fits. YieldsWith fits (sets_all entries.now) accounts.old
        (scene_at transaction.old conv (vault_holds vault.old) clock asked.now.process.now) accounts.new
        (scene_at transaction.new conv (vault_holds vault.new) clock asked.now.process.now)) }
    ensures puts { Puts transaction.old transaction.new }
{
    crate::laws::puts_alone();
    let mut rest = entries.items();
    while let [entry, after @ ..] = rest {
        if !set_variable(asked, entry, transaction, accounts, vault)? {
            return Ok(false);
        }
        rest = after;
    }
    Ok(true)
}

// Sets a variable; false if a value is too long.
fn set_variable(
    asked: &WorkInput,
    entry: &EnvLine,
    transaction: &mut Transaction,
    accounts: &mut Accounts,
    vault: &mut dyn Vault,
) -> Result<bool, NoMemory>
    ensures tells { vault_tells vault.new ≡ vault_tells vault.old }
    ensures files { IsTrue (vault_tells vault.old) →
        (vault_holds vault.new).files ≡ (vault_holds vault.old).files }
    ensures told { IsTrue (vault_tells vault.old) →
        (conv : ConvState) (clock : ClockState) →
        IfOk result (λ fits. YieldsWith fits (sets_variable entry.now) accounts.old
        (scene_at transaction.old conv (vault_holds vault.old) clock asked.now.process.now) accounts.new
        (scene_at transaction.new conv (vault_holds vault.new) clock asked.now.process.now)) }
    ensures puts { Puts transaction.old transaction.new }
{
    crate::laws::puts_alone();
    let asks = asks_account(entry);
    look(asked, asks, transaction, accounts, vault)?;
    let account = found_entry(asked.alloc, asks, &transaction.items, accounts)?;
    let fits = set_by(asked.alloc, entry, account.as_ref(), transaction)?;
    Ok(fits)
}

// Looks the user's account up, if it is needed and USER is set.
fn look(
    asked: &WorkInput,
    asks: bool,
    transaction: &Transaction,
    accounts: &mut Accounts,
    vault: &mut dyn Vault,
) -> Result<(), NoMemory>
    ensures tells { vault_tells vault.new ≡ vault_tells vault.old }
    ensures files { IsTrue (vault_tells vault.old) →
        (vault_holds vault.new).files ≡ (vault_holds vault.old).files }
    ensures told { IsTrue (vault_tells vault.old) →
        (conv : ConvState) (clock : ClockState) →
        OnOk result (YieldsWith (entry_seen asks transaction.now.items.user accounts.new)
        (looks_if asks) accounts.old
        (scene_at transaction.now conv (vault_holds vault.old) clock asked.now.process.now) accounts.new
        (scene_at transaction.now conv (vault_holds vault.new) clock asked.now.process.now)) }
    ensures read { OnOk result (asks ≡ true → transaction.now.items.user ≢ None →
        accounts.new.passwds ≢ None) }
{
    if asks {
        look_user(asked, transaction, accounts, vault)
    } else {
        Ok(())
    }
}

// Looks the user's account up, if USER is set.
fn look_user(
    asked: &WorkInput,
    transaction: &Transaction,
    accounts: &mut Accounts,
    vault: &mut dyn Vault,
) -> Result<(), NoMemory>
    ensures tells { vault_tells vault.new ≡ vault_tells vault.old }
    ensures files { IsTrue (vault_tells vault.old) →
        (vault_holds vault.new).files ≡ (vault_holds vault.old).files }
    ensures told { IsTrue (vault_tells vault.old) →
        (conv : ConvState) (clock : ClockState) →
        OnOk result (YieldsWith (entry_known transaction.now.items.user accounts.new)
        (λ act. sees_items (λ items. finds_entry items.user act)) accounts.old
        (scene_at transaction.now conv (vault_holds vault.old) clock asked.now.process.now) accounts.new
        (scene_at transaction.now conv (vault_holds vault.new) clock asked.now.process.now)) }
    ensures read { OnOk result (transaction.now.items.user ≢ None → accounts.new.passwds ≢ None) }
{
    laws::act_steps();
    match get_item(&transaction.items, ItemName::User) {
        Some(_user) => {
            accounts.read_passwds(asked.alloc, vault, asked.process)?;
            Ok(())
        }
        None => Ok(()),
    }
}

// The user's entry, if it was looked up and exists.
fn found_entry(
    alloc: Global,
    asks: bool,
    items: &Items,
    accounts: &Accounts,
) -> Result<Option<Passwd>, NoMemory>
    requires { asks ≡ true → items.now.user ≢ None → accounts.now.passwds ≢ None }
    ensures { IfOk result (λ entry. entry ≡ entry_seen asks items.now.user accounts.now) }
{
    if !asks {
        return Ok(None);
    }
    match get_item(items, ItemName::User) {
        Some(user) => match accounts.account(alloc, user)? {
            Account::Found(entry) => Ok(Some(entry)),
            Account::Missing => Ok(None),
            Account::Unreadable => Ok(None),
        },
        None => Ok(None),
    }
}

// Sets a variable by the user's entry; false if a value is too long.
fn set_by(
    alloc: Global,
    entry: &EnvLine,
    account: Option<&Passwd>,
    transaction: &mut Transaction,
) -> Result<bool, NoMemory>
    ensures told { (conv : ConvState) (vault : VaultState) (clock : ClockState)
        (process : Process) →
        IfOk result (λ fits. Yields fits (sets_by entry.now (option_copied account.entry))
        (scene_at transaction.old conv vault clock process)
        (scene_at transaction.new conv vault clock process)) }
    ensures puts { Puts transaction.old transaction.new }
{
    laws::act_steps();
    crate::laws::env_steps();
    crate::laws::puts_alone();
    let from = Sources {
        items: &transaction.items,
        env: &transaction.env,
        entry: account,
    };
    match expansion_of(alloc, entry, from)? {
        Expansion::TooLong => Ok(false),
        Expansion::Puts(text) => {
            put(text.bytes(), transaction)?;
            Ok(true)
        }
    }
}

/// Puts the texts in order (`pam_putenv(3)`).
pub(crate) fn put_all(texts: &Texts, transaction: &mut Transaction) -> Result<(), NoMemory>
    ensures told { (conv : ConvState) (vault : VaultState) (clock : ClockState)
        (process : Process) →
        OnOk result (Reaches (puts_all texts.now)
        (scene_at transaction.old conv vault clock process)
        (scene_at transaction.new conv vault clock process)) }
    ensures puts { Puts transaction.old transaction.new }
{
    crate::laws::puts_alone();
    let mut rest = texts.items();
    while let [text, after @ ..] = rest {
        put(text.bytes(), transaction)?;
        rest = after;
    }
    Ok(())
}

// Puts a text into the environment; a text that is refused changes nothing.
fn put(text: &[u8], transaction: &mut Transaction) -> Result<(), NoMemory>
    ensures told { (conv : ConvState) (vault : VaultState) (clock : ClockState)
        (process : Process) →
        OnOk result (Reaches (puts_env text.now)
        (scene_at transaction.old conv vault clock process)
        (scene_at transaction.new conv vault clock process)) }
    ensures puts { Puts transaction.old transaction.new }
{
    put_in(text, &mut transaction.env)?;
    Ok(())
}

fn put_in(text: &[u8], env: &mut EnvList) -> Result<(), NoMemory>
    ensures { OnOk result (env.new ≡ put_in text.now env.old) }
{
    match env.put(text) {
        Ok(()) => Ok(()),
        Err(Refuse::NoMemory) => Err(NoMemory),
        Err(Refuse::Named(_)) => Ok(()),
    }
}
