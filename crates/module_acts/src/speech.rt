ghost use Rattle.std.specs.Prelude.{◌≡◌, ◌≢◌, None, IsTrue, OnOk, OnErr, unwrap_or, []};
ghost use Rattle.pam_outside.specs.Files.{VaultState};
ghost use Rattle.pam_outside.specs.Time.{ClockState};
ghost use Rattle.pam_room.specs.Say.{signs};
ghost use Rattle.pam_room.specs.State.{PlainProcess};
ghost use Rattle.module_acts.specs.Act.{Reaches, shows};
ghost use Rattle.module_acts.specs.Returns.{scene_of_parts};
ghost use Rattle.module_acts.specs.OnlyTalks.{OnlyTalks};

use conv_port::Conv;
use pam_base::{ItemName, MAX_TEXT, NoMemory, Refuse, Style, Text};
use pam_room::{Transaction, first_bytes, get_item, send};
use std::alloc::Global;

/// The user; USER is set.
pub fn user_of(transaction: &Transaction) -> &[u8]
    requires { transaction.now.items.user ≢ None }
    ensures { result.now ≡ unwrap_or transaction.now.items.user [] }
{
    match get_item(&transaction.items, ItemName::User) {
        Some(user) => user,
        None => unreachable!(),
    }
}

/// Shows a text (`pam_info(3)`, `pam_error(3)`), of which 512 bytes count; it doesn't matter if the
/// conversation fails. An empty one isn't shown. If an allocation fails, a modelled conversation is
/// as it was, and none failed.
pub fn show(
    alloc: Global,
    transaction: &mut Transaction,
    conv: &mut dyn Conv,
    style: Style,
    text: &[u8],
) -> Result<(), NoMemory>
    ensures tells { conv_tells conv.new ≡ conv_tells conv.old }
    ensures told { IsTrue (conv_tells conv.old) →
        (vault : VaultState) (clock : ClockState) (process : PlainProcess) →
        OnOk result (Reaches (shows style text.now)
        (scene_of_parts transaction.old (conv_holds conv.old) vault clock process)
        (scene_of_parts transaction.new (conv_holds conv.new) vault clock process)) }
    ensures untaken { IsTrue (conv_tells conv.old) →
        OnErr result (conv_holds conv.new ≡ conv_holds conv.old) }
    ensures no_fault { OnErr result (signs (conv_faults conv.new)
        (conv_deferrals conv.new) transaction.new.put_off
        ≡ signs (conv_faults conv.old) (conv_deferrals conv.old) transaction.old.put_off) }
    ensures items { transaction.new.items ≡ transaction.old.items }
    ensures talks { OnlyTalks transaction.old transaction.new }
{
    if text.is_empty() {
        return Ok(());
    }
    let text = Text::from_bytes(alloc, first_bytes(text, MAX_TEXT))?;
    match send(alloc, transaction, conv, style, text) {
        Ok(_) => Ok(()),
        Err(Refuse::NoMemory) => Err(NoMemory),
        Err(Refuse::Named(_)) => Ok(()),
    }
}
