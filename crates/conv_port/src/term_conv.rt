ghost use Rattle.std.specs.Prelude.{◌≡◌, ◌≢◌, ◌≤◌, [], ◌∷◌, false, length, IfOk, OnOk, Err, IsOk, MatchOption};
ghost use Rattle.std.specs.Io.KnownBytes.{Appends, Consumes, IsAtEnd};
ghost use Rattle.pam_base.specs.Counts.{next_count};
ghost use Rattle.conv_port.specs.Message.{AreReplies, IsExchange, IsReply};
ghost use Rattle.conv_port.specs.Terminal.{Types, TypesLine, all_shown, shown};

use crate::conv::{Conv, ConvFault};
use crate::input::next_byte;
use crate::message::{Message, Messages, Replies, Reply};
use pam_base::{MAX_TEXT, NoMemory, Text};
use std::alloc::Global;
use std::io::{Read, Write};
use std::marker::Model;

/// A conversation on a terminal (`misc_conv(3)`): it shows texts on a writer, such as standard error, and reads replies
/// from a reader, such as standard input. It isn't modelled, and leaves the terminal's echo as it is.
#[derive(Drop)]
pub struct TermConv<R: Read + Drop, W: Write + Drop> {
    reader: R,
    writer: W,
    faults: u64,
}

impl<R: Read + Drop, W: Write + Drop> Model for TermConv<R, W> {
    ghost use Rattle.conv_port.specs.Terminal.{Terminal};

    ghost Value = { Terminal R W };

    ghost view = { λ t. record { reader = t.reader; writer = t.writer; faults = t.faults } };
}

impl<R: Read + Drop, W: Write + Drop> TermConv<R, W> {
    /// A conversation that hasn't failed yet.
    pub fn new(reader: R, writer: W) -> Self
        ensures { result ≡ record { reader = reader; writer = writer; faults = 0 } }
    {
        TermConv {
            reader,
            writer,
            faults: 0,
        }
    }
}

impl<R: Read + Drop, W: Write + Drop> Conv for TermConv<R, W> {
    ghost conv_tells = { λ t. false };

    // never modelled
    ghost conv_holds = { λ t. record { offers = []; waits = false; handed = [] } };

    ghost conv_faults = { λ t. t.faults };

    ghost conv_deferrals = { λ t. 0 };

    /// Shows each text, followed by a newline if it isn't a prompt, and reads the reply to each prompt before the next
    /// text: the bytes before the next newline; after 512 bytes without one these bytes, and what follows them is left
    /// for the next prompt; at the end of input what was read. It reads byte by byte, and no further. An error of the
    /// reader or the writer, or the end of input before any byte of a reply, is Gone; what was shown and read so far
    /// stays so, as it does if memory runs out. It never returns Again.
    fn talk(&mut self, alloc: Global, messages: &Messages) -> Result<Replies, ConvFault>
        requires { IsExchange messages.now }
        ensures replies { IfOk result (λ replies. AreReplies messages.now replies) }
        ensures faults { self.old.faults ≤ self.new.faults }
        ensures no_fault { result ≢ Err ConvFault.Gone → self.new.faults ≡ self.old.faults }
        ensures never_again { result ≢ Err ConvFault.Again }
        ensures one_fault { result ≡ Err ConvFault.Gone →
            self.new.faults ≡ next_count self.old.faults }
        ensures shown { OnOk result (Appends (W.contents self.old.writer)
            (W.contents self.new.writer) (all_shown messages.now)) }
        ensures typed { IfOk result (λ replies. Types messages.now replies
            (R.remaining self.old.reader) (R.remaining self.new.reader)) }
    {
        let result = converse(alloc, messages.items(), &mut self.reader, &mut self.writer);
        if let Err(ConvFault::Gone) = result {
            self.faults = self.faults.saturating_add(1);
        }
        result
    }

    /// Nothing is stored: a terminal's replies are typed.
    fn offer(&mut self, _alloc: Global, _text: &[u8]) -> Result<(), NoMemory>
        requires { length _text.now ≤ MAX_TEXT }
        ensures nothing { self.new ≡ self.old }
        ensures ok { IsOk result }
    {
        Ok(())
    }
}

// One exchange.
fn converse<R: Read, W: Write>(
    alloc: Global,
    messages: &[Message],
    reader: &mut R,
    writer: &mut W,
) -> Result<Replies, ConvFault>
    ensures replies { IfOk result (λ replies. AreReplies «messages».now replies) }
    ensures never_again { result ≢ Err ConvFault.Again }
    ensures shown { OnOk result (Appends (W.contents writer.old) (W.contents writer.new)
        (all_shown «messages».now)) }
    ensures typed { IfOk result (λ replies. Types «messages».now replies (R.remaining reader.old)
        (R.remaining reader.new)) }
{
    let mut replies = Replies::new(alloc);
    for message in messages {
        show(message, writer)?;
        replies.push(read_reply(alloc, message, reader)?)?;
    }
    Ok(replies)
}

// Shows one text.
fn show<W: Write>(message: &Message, writer: &mut W) -> Result<(), ConvFault>
    ensures never_again { result ≢ Err ConvFault.Again }
    ensures shown { OnOk result (Appends (W.contents writer.old) (W.contents writer.new)
        (shown message.now)) }
{
    writer
        .write_all(message.text.bytes())
        .map_err(|_| ConvFault::Gone)?;
    if !message.is_prompt() {
        writer.write_all(b"\n").map_err(|_| ConvFault::Gone)?;
    }
    writer.flush().map_err(|_| ConvFault::Gone)
}

// The reply to one message.
fn read_reply<R: Read>(alloc: Global, message: &Message, reader: &mut R) -> Result<Reply, ConvFault>
    ensures reply { IfOk result (λ reply. IsReply message.now reply) }
    ensures never_again { result ≢ Err ConvFault.Again }
    ensures typed { IfOk result (λ reply. Types (message.now ∷ []) (reply
        ∷ []) (R.remaining reader.old) (R.remaining reader.new)) }
{
    let text = if message.is_prompt() {
        read_line(alloc, reader)?
    } else {
        Text::new(alloc)
    };
    Ok(Reply { text })
}

// The next line, or a part of 512 bytes of a longer one.
fn read_line<R: Read>(alloc: Global, reader: &mut R) -> Result<Text, ConvFault>
    ensures short { IfOk result (λ text. length text ≤ MAX_TEXT) }
    ensures never_again { result ≢ Err ConvFault.Again }
    ensures typed { IfOk result (λ text. TypesLine text (R.remaining reader.old)
        (R.remaining reader.new)) }
{
    let room = Vec::with_capacity(alloc, MAX_TEXT).map_err(|_| ConvFault::NoMemory)?;
    let mut text = Text::from_vec(room);
    while text.len() < MAX_TEXT {
        match read_byte(reader)? {
            Some(b'\n') => return Ok(text),
            Some(byte) => text.push(byte)?,
            None if text.is_empty() => return Err(ConvFault::Gone),
            None => return Ok(text),
        }
    }
    Ok(text)
}

// The next byte; None at the end of input.
fn read_byte<R: Read>(reader: &mut R) -> Result<Option<u8>, ConvFault>
    ensures never_again { result ≢ Err ConvFault.Again }
    ensures byte { IfOk result (λ byte. MatchOption byte
        (Consumes (R.remaining reader.old) (R.remaining reader.new) []
        × IsAtEnd (R.remaining reader.new))
        (λ b. Consumes (R.remaining reader.old) (R.remaining reader.new) (b ∷ []))) }
{
    next_byte(reader).map_err(|_| ConvFault::Gone)
}
