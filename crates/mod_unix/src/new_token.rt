ghost use Rattle.std.specs.Prelude.{◌≡◌, ◌≤◌, ◌≢◌, IsTrue, IfOk, IfSome, Some, length};
ghost use Rattle.std.specs.Option.{option_copied};
ghost use Rattle.pam_outside.specs.Files.{VaultState};
ghost use Rattle.pam_outside.specs.Time.{ClockState};
ghost use Rattle.pam_room.specs.Plain.{plain_call};
ghost use Rattle.pam_room.specs.State.{PlainProcess};
ghost use Rattle.module_acts.specs.Returns.{Returns, scene_of_parts};
ghost use Rattle.module_acts.specs.OnlyTalks.{OnlyTalks};
ghost use Rattle.mod_unix.specs.Change.{new_prompts, same_reply, takes_token, usable};

use conv_port::{Conv, Message, Messages, Replies};
use module_acts::{exchange, has_argument, laws, set_token};
use pam_base::{ConvErr, ItemName, MAX_TEXT, NoMemory, Refuse, Style, Text};
use pam_room::{Call, Transaction, get_item};
use std::alloc::Global;

/// The new token: with `use_authtok` that of an earlier module, otherwise one that is asked for
/// twice. None if there is none, or it can't be taken.
pub fn take_token(
    alloc: Global,
    call: &Call,
    transaction: &mut Transaction,
    conv: &mut dyn Conv,
) -> Result<Option<Text>, Refuse<ConvErr>>
    ensures tells { conv_tells conv.new ≡ conv_tells conv.old }
    ensures told { IsTrue (conv_tells conv.old) →
        (vault : VaultState) (clock : ClockState) (process : PlainProcess) →
        Returns result (takes_token (plain_call call.now))
        (scene_of_parts transaction.old (conv_holds conv.old) vault clock process)
        (scene_of_parts transaction.new (conv_holds conv.new) vault clock process) }
    ensures short { IfOk result (λ token. IfSome token (λ t. length t ≤ MAX_TEXT)) }
    ensures talks { OnlyTalks transaction.old transaction.new }
{
    module_acts::laws::act_steps();
    laws::talking();
    if has_argument(b"use_authtok", call.args) {
        let token = usable(alloc, get_item(&transaction.items, ItemName::AuthTok))?;
        return Ok(token);
    }
    let prompts = new_prompts(alloc)?;
    let replies = exchange(alloc, transaction, conv, &prompts)?;
    match same_reply(alloc, &replies)? {
        Some(token) => {
            set_token(transaction, token.bytes())?;
            Ok(Some(token))
        }
        None => Ok(None),
    }
}

// A token, unless it is empty or has more than `MAX_TEXT` bytes.
fn usable(alloc: Global, token: Option<&[u8]>) -> Result<Option<Text>, NoMemory>
    ensures usable { IfOk result (λ text. text ≡ usable (option_copied token.entry)) }
    ensures short { IfOk result (λ text. IfSome text (λ t. length t ≤ MAX_TEXT)) }
{
    match token {
        Some(token) => {
            if token.is_empty() || token.len() > MAX_TEXT {
                Ok(None)
            } else {
                Ok(Some(Text::from_bytes(alloc, token)?))
            }
        }
        None => Ok(None),
    }
}

fn new_prompts(alloc: Global) -> Result<Messages, NoMemory>
    ensures { IfOk result (λ messages. messages ≡ new_prompts) }
{
    let mut messages = Messages::new(alloc);
    messages.push(Message {
        style: Style::EchoOff,
        text: Text::from_bytes(alloc, b"New password: ")?,
    })?;
    messages.push(Message {
        style: Style::EchoOff,
        text: Text::from_bytes(alloc, b"Retype new password: ")?,
    })?;
    Ok(messages)
}

fn same_reply(alloc: Global, replies: &Replies) -> Result<Option<Text>, NoMemory>
    ensures same { IfOk result (λ text. text ≡ same_reply replies.now) }
    ensures short { IfOk result (λ text. IfSome text (λ t. length t ≤ MAX_TEXT)) }
{
    match replies.items() {
        [first, second] => {
            if first.text.bytes() == second.text.bytes() {
                usable(alloc, Some(first.text.bytes()))
            } else {
                Ok(None)
            }
        }
        _ => Ok(None),
    }
}
