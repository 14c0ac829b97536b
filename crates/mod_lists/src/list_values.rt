ghost use Rattle.std.specs.Prelude.{◌≡◌, ◌≢◌, [], ◌∷◌, None, false, IsTrue, IfOk};
ghost use Rattle.std.specs.Option.{option_copied};
ghost use Rattle.item_store.specs.Access.{is_refused};
ghost use Rattle.item_store.specs.Items.{text_of};
ghost use Rattle.item_store.specs.declared.access.Access.TheVariants.{ModuleGets};
ghost use Rattle.conv_port.specs.Conv.{ConvState};
ghost use Rattle.pam_outside.specs.Files.{VaultState};
ghost use Rattle.pam_outside.specs.Time.{ClockState};
ghost use Rattle.module_acts.specs.Accounts.{Known, account_in, known_groups, known_passwds};
ghost use Rattle.module_acts.specs.Act.{LooksTo, sees_items};
ghost use Rattle.module_acts.specs.Found.{plain_account};
ghost use Rattle.module_acts.specs.YieldsWith.{YieldsWith};
ghost use Rattle.module_acts.specs.Seen.{scene_seen, user_seen};
ghost use Rattle.mod_lists.specs.Listfile.{group_values, reads_values, shell_values, text_value, text_values, without_dev};

use crate::list_settings::ListItem;
use account_db::group_names;
use module_acts::{Account, Accounts, CheckInput, account_of, laws, user_of};
use pam_base::{ItemName, NoMemory, Text, Texts};
use pam_outside::Vault;
use pam_room::get_item;
use std::alloc::Global;

/// The values that are looked for in the list.
#[derive(Debug, Drop)]
pub enum Values {
    /// The item is unset or empty.
    Unset,
    /// There is no such user, or a file can't be read.
    Unknown,
    These(Texts),
}

/// The values to look for in the list.
pub(crate) fn values_of(
    seen: &CheckInput,
    item: ListItem,
    accounts: &mut Accounts,
    vault: &mut dyn Vault,
) -> Result<Values, NoMemory>
    requires { seen.now.transaction.now.items.user ≢ None }
    ensures tells { vault_tells vault.new ≡ vault_tells vault.old }
    ensures files { IsTrue (vault_tells vault.old) →
        (vault_holds vault.new).files ≡ (vault_holds vault.old).files }
    ensures told { IsTrue (vault_tells vault.old) →
        (conv : ConvState) (clock : ClockState) →
        IfOk result (λ values. YieldsWith values (reads_values item (user_seen seen.now))
        accounts.old (scene_seen seen.now conv (vault_holds vault.old) clock)
        accounts.new (scene_seen seen.now conv (vault_holds vault.new) clock)) }
{
    laws::act_steps();
    match item {
        ListItem::Tty => item_values(seen, item, ItemName::Tty),
        ListItem::User => item_values(seen, item, ItemName::User),
        ListItem::Rhost => item_values(seen, item, ItemName::Rhost),
        ListItem::Ruser => item_values(seen, item, ItemName::Ruser),
        ListItem::Shell => {
            let account = account_of(seen, accounts, vault)?;
            let shell = shell_values(seen.alloc, account)?;
            Ok(shell)
        }
        ListItem::Group => {
            let groups = group_values(seen, accounts, vault)?;
            Ok(groups)
        }
    }
}

// The value of this item of the transaction, if it has one.
fn item_values(seen: &CheckInput, item: ListItem, name: ItemName) -> Result<Values, NoMemory>
    requires { is_refused ModuleGets name ≡ false }
    ensures told { (conv : ConvState) (vault : VaultState) (clock : ClockState) (known : Known) →
        IfOk result (λ values. YieldsWith values
        (λ act. sees_items (λ texts. act (text_values item (text_of texts name)))) known
        (scene_seen seen.now conv vault clock) known (scene_seen seen.now conv vault clock)) }
{
    laws::act_steps();
    let values = text_values(seen.alloc, item, get_item(&seen.transaction.items, name))?;
    Ok(values)
}

// The value of an item, by its text.
fn text_values(alloc: Global, item: ListItem, text: Option<&[u8]>) -> Result<Values, NoMemory>
    ensures { IfOk result (λ values. values ≡ text_values item (option_copied text.entry)) }
{
    match text {
        None => Ok(Values::Unset),
        Some([]) => Ok(Values::Unset),
        Some(text) => {
            let values = one_value(alloc, text_value(item, text))?;
            Ok(values)
        }
    }
}

fn one_value(alloc: Global, text: &[u8]) -> Result<Values, NoMemory>
    ensures { IfOk result (λ values. values ≡ Values.These (text.now ∷ [])) }
{
    let mut texts = Texts::new(alloc);
    texts.push(Text::from_bytes(alloc, text)?)?;
    Ok(Values::These(texts))
}

fn text_value(item: ListItem, text: &[u8]) -> &[u8]
    ensures { result.now ≡ text_value item text.now }
{
    match item {
        ListItem::Tty => without_dev(text),
        _ => text,
    }
}

// A terminal without a leading `/dev/`.
fn without_dev(text: &[u8]) -> &[u8]
    ensures { result.now ≡ without_dev text.now }
{
    if text.starts_with(b"/dev/") {
        &text[5..]
    } else {
        text
    }
}

// The user's shell.
fn shell_values(alloc: Global, account: Account) -> Result<Values, NoMemory>
    ensures { IfOk result (λ values. values ≡ shell_values (plain_account account)) }
{
    match account {
        Account::Missing => Ok(Values::Unknown),
        Account::Unreadable => Ok(Values::Unknown),
        Account::Found(entry) => {
            let values = one_value(alloc, entry.shell.bytes())?;
            Ok(values)
        }
    }
}

// The names of the user's groups.
fn group_values(
    seen: &CheckInput,
    accounts: &mut Accounts,
    vault: &mut dyn Vault,
) -> Result<Values, NoMemory>
    requires { seen.now.transaction.now.items.user ≢ None }
    ensures tells { vault_tells vault.new ≡ vault_tells vault.old }
    ensures files { IsTrue (vault_tells vault.old) →
        (vault_holds vault.new).files ≡ (vault_holds vault.old).files }
    ensures told { IsTrue (vault_tells vault.old) →
        IfOk result (λ values. LooksTo (reads_values ListItem.Group (user_seen seen.now)) values
        seen.now.process.now accounts.old (vault_holds vault.old) accounts.new
        (vault_holds vault.new)) }
{
    let account = account_of(seen, accounts, vault)?;
    match account {
        Account::Missing => return Ok(Values::Unknown),
        Account::Unreadable => return Ok(Values::Unknown),
        Account::Found(_) => {}
    }
    accounts.read_groups(seen.alloc, vault, seen.process)?;
    let values = values_of_groups(seen.alloc, user_of(seen.transaction), accounts)?;
    Ok(values)
}

// The same, by files that have been read.
fn values_of_groups(alloc: Global, user: &[u8], accounts: &Accounts) -> Result<Values, NoMemory>
    requires passwds { accounts.now.passwds ≢ None }
    requires groups { accounts.now.groups ≢ None }
    ensures { IfOk result (λ values. values ≡ group_values user.now
        (account_in user.now (known_passwds accounts.now)) (known_groups accounts.now)) }
{
    let account = accounts.account(alloc, user)?;
    match (account, accounts.groups()) {
        (Account::Found(entry), Some(groups)) => {
            let names = group_names(alloc, user, &entry, groups)?;
            Ok(Values::These(names))
        }
        _ => Ok(Values::Unknown),
    }
}
