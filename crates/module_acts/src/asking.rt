ghost use Rattle.std.specs.Prelude.{◌≡◌, ◌≢◌, ◌≤◌, None, Err, IsOk, IsTrue, IfOk, OnOk, OnErr, length, unwrap_or, []};
ghost use Rattle.pam_room.specs.item_store.specs.Items.{text_of};
ghost use Rattle.conv_port.specs.Message.{AreReplies, IsExchange};
ghost use Rattle.pam_outside.specs.Files.{VaultState};
ghost use Rattle.pam_outside.specs.Time.{ClockState};
ghost use Rattle.pam_room.specs.State.{PlainProcess};
ghost use Rattle.pam_room.specs.Say.{ConvErrIsCounted, signs, token_of};
ghost use Rattle.module_acts.specs.Act.{asks_user};
ghost use Rattle.module_acts.specs.Returns.{Returns, ReturnsWith, scene_of_parts};
ghost use Rattle.module_acts.specs.Steps.{asks_token, exchanges};
ghost use Rattle.module_acts.specs.OnlyTalks.{OnlyTalks};

use conv_port::{Conv, Messages, Replies};
use pam_base::{ConvErr, MAX_TEXT, Refuse};
use pam_room::{Transaction, ask_token, get_user, say};
use std::alloc::Global;

/// Makes sure that USER is set, as `get_user` does (`pam_get_user(3)`).
pub fn require_user(
    alloc: Global,
    transaction: &mut Transaction,
    conv: &mut dyn Conv,
) -> Result<(), Refuse<ConvErr>>
    ensures tells { conv_tells conv.new ≡ conv_tells conv.old }
    ensures told { IsTrue (conv_tells conv.old) →
        (vault : VaultState) (clock : ClockState) (process : PlainProcess) →
        ReturnsWith result (unwrap_or transaction.new.items.user []) asks_user
        (scene_of_parts transaction.old (conv_holds conv.old) vault clock process)
        (scene_of_parts transaction.new (conv_holds conv.new) vault clock process) }
    ensures shows { ConvErrIsCounted result (signs (conv_faults conv.old)
        (conv_deferrals conv.old) transaction.old.put_off)
        (signs (conv_faults conv.new) (conv_deferrals conv.new) transaction.new.put_off) }
    ensures set { OnOk result (transaction.new.items.user ≢ None) }
    ensures was_set { transaction.old.items.user ≢ None →
        IsOk result × (transaction.new ≡ transaction.old) }
    ensures refused { OnErr result (transaction.new.items ≡ transaction.old.items) }
    ensures talks { OnlyTalks transaction.old transaction.new }
{
    get_user(alloc, transaction, conv)
}

/// Asks for a token, as `ask_token` does (`pam_get_authtok(3)`).
pub fn require_token(
    alloc: Global,
    transaction: &mut Transaction,
    conv: &mut dyn Conv,
    old: bool,
    prompt: &[u8],
) -> Result<(), Refuse<ConvErr>>
    requires { length prompt.now ≤ MAX_TEXT }
    ensures tells { conv_tells conv.new ≡ conv_tells conv.old }
    ensures told { IsTrue (conv_tells conv.old) →
        (vault : VaultState) (clock : ClockState) (process : PlainProcess) →
        ReturnsWith result (unwrap_or (text_of transaction.new.items (token_of old)) [])
        (asks_token old prompt.now)
        (scene_of_parts transaction.old (conv_holds conv.old) vault clock process)
        (scene_of_parts transaction.new (conv_holds conv.new) vault clock process) }
    ensures shows { ConvErrIsCounted result (signs (conv_faults conv.old)
        (conv_deferrals conv.old) transaction.old.put_off)
        (signs (conv_faults conv.new) (conv_deferrals conv.new) transaction.new.put_off) }
    ensures set { OnOk result (text_of transaction.new.items (token_of old) ≢ None) }
    ensures refused { OnErr result (transaction.new.items ≡ transaction.old.items) }
    ensures talks { OnlyTalks transaction.old transaction.new }
{
    ask_token(alloc, transaction, conv, old, prompt)
}

/// Sends messages to the user at once, as `say` does (`pam_conv(3)`).
pub fn exchange(
    alloc: Global,
    transaction: &mut Transaction,
    conv: &mut dyn Conv,
    messages: &Messages,
) -> Result<Replies, Refuse<ConvErr>>
    requires { IsExchange messages.now }
    ensures tells { conv_tells conv.new ≡ conv_tells conv.old }
    ensures told { IsTrue (conv_tells conv.old) →
        (vault : VaultState) (clock : ClockState) (process : PlainProcess) →
        Returns result (exchanges messages.now)
        (scene_of_parts transaction.old (conv_holds conv.old) vault clock process)
        (scene_of_parts transaction.new (conv_holds conv.new) vault clock process) }
    ensures untaken { IsTrue (conv_tells conv.old) → result ≡ Err Refuse.NoMemory →
        conv_holds conv.new ≡ conv_holds conv.old }
    ensures shows { ConvErrIsCounted result (signs (conv_faults conv.old)
        (conv_deferrals conv.old) transaction.old.put_off)
        (signs (conv_faults conv.new) (conv_deferrals conv.new) transaction.new.put_off) }
    ensures replies { IfOk result (λ replies. AreReplies messages.now replies) }
    ensures items { transaction.new.items ≡ transaction.old.items }
    ensures talks { OnlyTalks transaction.old transaction.new }
{
    say(alloc, transaction, conv, messages)
}
