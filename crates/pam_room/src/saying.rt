ghost use Rattle.std.specs.Prelude.{◌≡◌, ◌≢◌, ◌≤◌, ◌⊎◌, ◌++◌, ◌∷◌, [], Err, IsTrue, IfOk, OnOk, OnErr, length};
ghost use Rattle.conv_port.specs.Message.{AreReplies, IsExchange, IsReply};
ghost use Rattle.pam_room.specs.Say.{ConvErrIsCounted, Says, Sends, signs, speak};
ghost use Rattle.pam_room.specs.Plain.{OnlySays, seen_in};

use crate::transaction::Transaction;
use conv_port::{Conv, ConvFault, Message, Messages, Replies, Reply, talk_with};
use pam_base::{ConvErr, MAX_TEXT, NoMemory, Refuse, Style, Text};
use std::alloc::Global;
use std::mem;

/// Sends messages to the user (`pam_conv(3)`), and returns one reply of at most 512 bytes for each,
/// an empty one for a message that isn't a prompt. They are added to the transaction's messages
/// first, all or none, and a modelled conversation shows that it got these very messages, as one
/// exchange.
///
/// ConvErr is returned if and only if the conversation returned Gone or Again in this call, and
/// only Again leaves the call incomplete. If an allocation fails, either no message was sent, or
/// all were added and the conversation is as it was.
pub fn say(
    alloc: Global,
    transaction: &mut Transaction,
    conv: &mut dyn Conv,
    messages: &Messages,
) -> Result<Replies, Refuse<ConvErr>>
    requires { IsExchange messages.now }
    ensures tells { conv_tells conv.new ≡ conv_tells conv.old }
    ensures told { IsTrue (conv_tells conv.old) → Says result
        (speak messages.now (seen_in transaction.old (conv_holds conv.old)))
        (seen_in transaction.new (conv_holds conv.new)) }
    ensures untaken { IsTrue (conv_tells conv.old) → result ≡ Err Refuse.NoMemory →
        conv_holds conv.new ≡ conv_holds conv.old }
    ensures shows { ConvErrIsCounted result (signs (conv_faults conv.old)
        (conv_deferrals conv.old) transaction.old.put_off)
        (signs (conv_faults conv.new) (conv_deferrals conv.new) transaction.new.put_off) }
    ensures replies { IfOk result (λ replies. AreReplies messages.now replies) }
    ensures said { result ≢ Err Refuse.NoMemory →
        transaction.new.said ≡ transaction.old.said ++ messages.now }
    ensures all_or_none { (transaction.new.said ≡ transaction.old.said) ⊎
        (transaction.new.said ≡ transaction.old.said ++ messages.now) }
    ensures others { OnlySays transaction.old transaction.new }
{
    let copies = copies_of(alloc, messages)?;
    append(alloc, &mut transaction.said, copies)?;
    match talk_with(conv, alloc, messages) {
        Ok(replies) => Ok(replies),
        Err(ConvFault::NoMemory) => Err(Refuse::NoMemory),
        Err(ConvFault::Gone) => Err(Refuse::Named(ConvErr)),
        Err(ConvFault::Again) => {
            transaction.put_off = true;
            Err(Refuse::Named(ConvErr))
        }
    }
}

/// Sends one message of at most 512 bytes to the user (`pam_prompt(3)`), as `say` does, and returns
/// its reply.
pub fn send(
    alloc: Global,
    transaction: &mut Transaction,
    conv: &mut dyn Conv,
    style: Style,
    text: Text,
) -> Result<Reply, Refuse<ConvErr>>
    requires { length text ≤ MAX_TEXT }
    ensures tells { conv_tells conv.new ≡ conv_tells conv.old }
    ensures told { IsTrue (conv_tells conv.old) → Sends result
        (speak (record { style = style; text = text } ∷ [])
        (seen_in transaction.old (conv_holds conv.old)))
        (seen_in transaction.new (conv_holds conv.new)) }
    ensures untaken { IsTrue (conv_tells conv.old) → result ≡ Err Refuse.NoMemory →
        conv_holds conv.new ≡ conv_holds conv.old }
    ensures shows { ConvErrIsCounted result (signs (conv_faults conv.old)
        (conv_deferrals conv.old) transaction.old.put_off)
        (signs (conv_faults conv.new) (conv_deferrals conv.new) transaction.new.put_off) }
    ensures reply { IfOk result (λ reply. IsReply (record { style = style; text = text }) reply) }
    ensures said { result ≢ Err Refuse.NoMemory →
        transaction.new.said ≡ transaction.old.said ++ record { style = style; text = text } ∷ [] }
    ensures all_or_none { (transaction.new.said ≡ transaction.old.said)
        ⊎ (transaction.new.said ≡ transaction.old.said ++ record { style = style; text = text }
        ∷ []) }
    ensures others { OnlySays transaction.old transaction.new }
{
    let mut messages = Messages::new(alloc);
    messages.push(Message { style, text })?;
    let replies = say(alloc, transaction, conv, &messages)?;
    Ok(replies.into_vec().pop().unwrap())
}

fn copies_of(alloc: Global, messages: &Messages) -> Result<Vec<Message>, NoMemory>
    ensures { IfOk result (λ copies. copies.items ≡ messages.now) }
{
    let mut copies = Vec::new(alloc);
    for message in messages.items() {
        copies.push(Message {
            style: message.style,
            text: Text::from_bytes(alloc, message.text.bytes())?,
        })?;
    }
    Ok(copies)
}

// Adds messages at the end, all or none.
fn append(alloc: Global, said: &mut Messages, mut more: Vec<Message>) -> Result<(), NoMemory>
    ensures ok { OnOk result (said.new ≡ said.old ++ more.items) }
    ensures err { OnErr result (said.new ≡ said.old) }
{
    let mut all = mem::replace(said, Messages::new(alloc)).into_vec();
    let appended = all.append(&mut more);
    *said = Messages::from_vec(all);
    appended?;
    Ok(())
}
