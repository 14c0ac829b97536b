ghost use Rattle.std.specs.Prelude.{◌≡◌, ◌≢◌, ◌≤◌, false, None, IsOk, IfOk, length};
ghost use Rattle.item_store.specs.Access.{is_refused};
ghost use Rattle.item_store.specs.declared.access.Access.TheVariants.{ModuleSets};
ghost use Rattle.pam_room.specs.Asking.{AsksOnce, talk_by};
ghost use Rattle.pam_room.specs.Say.{ask_item, login_prompt, token_asked, token_of, user_asked};

use crate::bytes::first_bytes;
use crate::item::{get_item, set_item};
use crate::saying::send;
use crate::transaction::Transaction;
use conv_port::Conv;
use item_store::Items;
use pam_base::{ConvErr, ItemName, MAX_TEXT, NoMemory, Refuse, Style, Text};
use std::alloc::Global;

/// Makes sure that USER is set (`pam_get_user(3)`). If it is, nothing else happens. Otherwise one
/// PAM_PROMPT_ECHO_ON message is sent, USER_PROMPT if that is set, of which the first 512 bytes
/// count, or `login: `, and USER is set to the reply.
///
/// ConvErr is returned if and only if `say` would return it. If an allocation fails, the question
/// may be among the messages, a modelled conversation is as it was or has replied to this question
/// alone, and USER is as it was.
pub fn get_user(
    alloc: Global,
    transaction: &mut Transaction,
    conv: &mut dyn Conv,
) -> Result<(), Refuse<ConvErr>>
    ensures asks { let talk = talk_by conv_tells conv_holds conv_faults conv_deferrals in
        AsksOnce result ItemName.User Style.EchoOn
        (login_prompt transaction.old.items.user_prompt) user_asked
        (talk transaction.old conv.old) (talk transaction.new conv.new) }
    ensures was_set { transaction.old.items.user ≢ None →
        IsOk result × (transaction.new ≡ transaction.old) }
{
    if get_item(&transaction.items, ItemName::User).is_some() {
        return Ok(());
    }
    let prompt = prompt_for_login(alloc, &transaction.items)?;
    ask(
        alloc,
        transaction,
        conv,
        Style::EchoOn,
        prompt,
        ItemName::User,
    )
}

/// Asks for a token with one PAM_PROMPT_ECHO_OFF message of at most 512 bytes, and sets AUTHTOK, or
/// if `old` OLDAUTHTOK, to the reply (`pam_get_authtok(3)`, `pam_get_authtok_noverify(3)`).
///
/// ConvErr is returned if and only if `say` would return it. If an allocation fails, the question
/// may be among the messages, a modelled conversation is as it was or has replied to this question
/// alone, and the token is as it was.
pub fn ask_token(
    alloc: Global,
    transaction: &mut Transaction,
    conv: &mut dyn Conv,
    old: bool,
    prompt: &[u8],
) -> Result<(), Refuse<ConvErr>>
    requires { length prompt.now ≤ MAX_TEXT }
    ensures { let talk = talk_by conv_tells conv_holds conv_faults conv_deferrals in
        AsksOnce result (token_of old) Style.EchoOff prompt.now (token_asked old prompt.now)
        (talk transaction.old conv.old) (talk transaction.new conv.new) }
{
    let token = if old {
        ItemName::OldAuthTok
    } else {
        ItemName::AuthTok
    };
    let prompt = Text::from_bytes(alloc, prompt)?;
    ask(alloc, transaction, conv, Style::EchoOff, prompt, token)
}

// Sends one message, and sets an item to the reply.
fn ask(
    alloc: Global,
    transaction: &mut Transaction,
    conv: &mut dyn Conv,
    style: Style,
    prompt: Text,
    item: ItemName,
) -> Result<(), Refuse<ConvErr>>
    requires short { length prompt ≤ MAX_TEXT }
    requires settable { is_refused ModuleSets item ≡ false }
    ensures { let talk = talk_by conv_tells conv_holds conv_faults conv_deferrals in
        AsksOnce result item style prompt (ask_item item style prompt)
        (talk transaction.old conv.old) (talk transaction.new conv.new) }
{
    let reply = send(alloc, transaction, conv, style, prompt)?;
    set_item(&mut transaction.items, item, reply.text.bytes())?;
    Ok(())
}

// A copy of the prompt for a user's name.
fn prompt_for_login(alloc: Global, items: &Items) -> Result<Text, NoMemory>
    ensures { IfOk result (λ prompt. prompt ≡ login_prompt items.now.user_prompt) }
{
    match get_item(items, ItemName::UserPrompt) {
        Some(prompt) => Text::from_bytes(alloc, first_bytes(prompt, MAX_TEXT)),
        None => Text::from_bytes(alloc, b"login: "),
    }
}
