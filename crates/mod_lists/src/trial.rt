ghost use Rattle.std.specs.Prelude.{◌≡◌, ◌≢◌, [], Some, None, IsTrue, IfOk, option_map, unwrap_or};
ghost use Rattle.std.specs.Option.{option_copied};
ghost use Rattle.conv_port.specs.Conv.{ConvState};
ghost use Rattle.pam_outside.specs.Time.{ClockState};
ghost use Rattle.module_acts.specs.Accounts.{entry_known, known_groups, known_passwds};
ghost use Rattle.module_acts.specs.Act.{LooksTo, reads_passwds};
ghost use Rattle.module_acts.specs.YieldsWith.{YieldsWith};
ghost use Rattle.module_acts.specs.Seen.{scene_seen, user_seen};
ghost use Rattle.module_acts.specs.Found.{plain_account};
ghost use Rattle.mod_lists.specs.declared.truth.Truth.{Truth};
ghost use Rattle.mod_lists.specs.Condition.{items_of, plain_condition, plain_test};
ghost use Rattle.mod_lists.specs.SucceedIf.{tried_in_groups, tries_after_passwds, is_in_any, item_text, on_account, on_entry, tries_words};

use crate::condition::{AccountField, Condition, Field, ItemField, Test};
use crate::truth::{Truth, in_sense};
use account_db::{Groups, Passwd, is_in_group};
use item_store::Items;
use module_acts::{Account, Accounts, CheckInput, account_of, laws, user_of};
use pam_base::{ItemName, NoMemory, Parts};
use pam_outside::Vault;
use pam_room::get_item;
use std::alloc::Global;

/// Tries the condition of three words, if it is one.
pub(crate) fn try_words(
    seen: &CheckInput,
    condition: Option<Condition>,
    accounts: &mut Accounts,
    vault: &mut dyn Vault,
) -> Result<Truth, NoMemory>
    requires { seen.now.transaction.now.items.user ≢ None }
    ensures tells { vault_tells vault.new ≡ vault_tells vault.old }
    ensures files { IsTrue (vault_tells vault.old) →
        (vault_holds vault.new).files ≡ (vault_holds vault.old).files }
    ensures told { IsTrue (vault_tells vault.old) →
        (conv : ConvState) (clock : ClockState) →
        IfOk result (λ truth. YieldsWith truth
        (tries_words (option_map plain_condition condition.entry) (user_seen seen.now))
        accounts.old (scene_seen seen.now conv (vault_holds vault.old) clock)
        accounts.new (scene_seen seen.now conv (vault_holds vault.new) clock)) }
{
    laws::act_steps();
    let condition = match condition {
        Some(condition) => condition,
        None => return Ok(Truth::Faulty),
    };
    match condition {
        Condition::On(field, test) => match field {
            Field::Item(item) => Ok(test.on_text(item_text(item, &seen.transaction.items))),
            Field::Account(field) => {
                let account = account_of(seen, accounts, vault)?;
                let truth = on_account(seen.alloc, field, test, account)?;
                Ok(truth)
            }
        },
        Condition::Grouped(sense, names) => {
            let truth = try_groups(seen, sense, names, accounts, vault)?;
            Ok(truth)
        }
    }
}

// The text of an item; the empty text if it is unset.
fn item_text(item: ItemField, items: &Items) -> &[u8]
    ensures { result.now ≡ item_text item items.now }
{
    match item {
        ItemField::User => text_or_empty(get_item(items, ItemName::User)),
        ItemField::Tty => text_or_empty(get_item(items, ItemName::Tty)),
        ItemField::Rhost => text_or_empty(get_item(items, ItemName::Rhost)),
        ItemField::Ruser => text_or_empty(get_item(items, ItemName::Ruser)),
        ItemField::Service => text_or_empty(get_item(items, ItemName::Service)),
    }
}

fn text_or_empty<'a>(text: Option<&'a [u8]>) -> &'a [u8]
    ensures { result.now ≡ unwrap_or (option_copied text.entry) [] }
{
    match text {
        Some(text) => text,
        None => b"",
    }
}

// The truth of a test of a field of the user's account.
fn on_account(
    alloc: Global,
    field: AccountField,
    test: Test,
    account: Account,
) -> Result<Truth, NoMemory>
    ensures { IfOk result (λ truth. truth ≡ on_account (plain_test test.entry) field
        (plain_account account)) }
{
    match account {
        Account::Found(entry) => on_entry(alloc, field, test, &entry),
        Account::Missing => Ok(Truth::NoUser),
        Account::Unreadable => Ok(Truth::Faulty),
    }
}

fn on_entry(
    alloc: Global,
    field: AccountField,
    test: Test,
    entry: &Passwd,
) -> Result<Truth, NoMemory>
    ensures { IfOk result (λ truth. truth ≡ on_entry (plain_test test.entry) field entry.now) }
{
    match field {
        AccountField::Uid => test.on_number(alloc, entry.uid),
        AccountField::Gid => test.on_number(alloc, entry.gid),
        AccountField::Shell => Ok(test.on_text(entry.shell.bytes())),
        AccountField::Home => Ok(test.on_text(entry.home.bytes())),
    }
}

// Tries whether the user is in one of some groups.
fn try_groups(
    seen: &CheckInput,
    sense: bool,
    names: &[u8],
    accounts: &mut Accounts,
    vault: &mut dyn Vault,
) -> Result<Truth, NoMemory>
    requires { seen.now.transaction.now.items.user ≢ None }
    ensures tells { vault_tells vault.new ≡ vault_tells vault.old }
    ensures files { IsTrue (vault_tells vault.old) →
        (vault_holds vault.new).files ≡ (vault_holds vault.old).files }
    ensures told { IsTrue (vault_tells vault.old) →
        IfOk result (λ truth. LooksTo (λ act. reads_passwds (tries_after_passwds sense
        (items_of names.now) (user_seen seen.now) act)) truth seen.now.process.now
        accounts.old (vault_holds vault.old) accounts.new (vault_holds vault.new)) }
{
    accounts.read_passwds(seen.alloc, vault, seen.process)?;
    match accounts.passwds() {
        None => return Ok(Truth::Faulty),
        Some(_) => {}
    }
    accounts.read_groups(seen.alloc, vault, seen.process)?;
    let truth = tried_in_groups(
        seen.alloc,
        sense,
        names,
        user_of(seen.transaction),
        accounts,
    )?;
    Ok(truth)
}

// Whether the user is in one of the groups, by files that have been read.
fn tried_in_groups(
    alloc: Global,
    sense: bool,
    names: &[u8],
    user: &[u8],
    accounts: &Accounts,
) -> Result<Truth, NoMemory>
    requires passwds { accounts.now.passwds ≢ None }
    requires groups { accounts.now.groups ≢ None }
    ensures { IfOk result (λ truth. truth ≡ tried_in_groups sense (items_of names.now) user.now
        (entry_known user.now (known_passwds accounts.now)) (known_groups accounts.now)) }
{
    let entry = accounts.entry(alloc, user)?;
    match (accounts.groups(), entry) {
        (Some(groups), Some(entry)) => Ok(in_sense(sense, is_in_any(names, user, &entry, groups))),
        (Some(_), None) => Ok(Truth::NoUser),
        (None, _) => Ok(Truth::Faulty),
    }
}

// Whether the user is in one of the groups with these names.
fn is_in_any(names: &[u8], user: &[u8], entry: &Passwd, groups: &Groups) -> bool
    ensures { result ≡ is_in_any (items_of names.now) user.now (Some entry.now) groups.now }
{
    let mut parts = Parts::new(b':', names);
    while let Some(name) = parts.next_part() {
        if is_in_group(name, user, Some(entry), groups) {
            return true;
        }
    }
    false
}
