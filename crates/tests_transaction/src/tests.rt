ghost use Rattle.std.specs.Prelude.{◌≤◌, length, IfOk};
ghost use Rattle.conv_port.specs.Message.{IsExchange};

use conv_port::{Conv, ConvFault, Message, Messages, Replies, TermConv};
use pam_base::{NoMemory, Style, Text};
use std::alloc::{AllocError, Global};
use std::io::{self, ErrorKind, Read, Write};
use std::test::Fail;

// One message.
fn one(alloc: Global, style: Style, text: &[u8]) -> Result<Messages, NoMemory>
    requires { length text.now ≤ 512 }
    ensures { IfOk result (λ messages. IsExchange messages) }
{
    let mut messages = Messages::new(alloc);
    let text = Text::from_bytes(alloc, text)?;
    messages.push(Message { style, text })?;
    Ok(messages)
}

// A greeting, and the prompts for a name and a password.
fn login(alloc: Global) -> Result<Messages, NoMemory>
    ensures { IfOk result (λ messages. IsExchange messages) }
{
    let mut messages = Messages::new(alloc);
    let greeting = Text::from_bytes(alloc, b"hi")?;
    let name = Text::from_bytes(alloc, b"login: ")?;
    let password = Text::from_bytes(alloc, b"Password: ")?;
    messages.push(Message {
        style: Style::TextInfo,
        text: greeting,
    })?;
    messages.push(Message {
        style: Style::EchoOn,
        text: name,
    })?;
    messages.push(Message {
        style: Style::EchoOff,
        text: password,
    })?;
    Ok(messages)
}

// The replies, each with a `|` after it, or the fault's name.
fn told(alloc: Global, answer: &Result<Replies, ConvFault>) -> Result<Vec<u8>, AllocError> {
    let mut text = Vec::new(alloc);
    match answer {
        Ok(replies) => {
            for reply in replies.items() {
                text.extend_from_slice(reply.text.bytes())?;
                text.extend_from_slice(b"|")?;
            }
        }
        Err(ConvFault::Gone) => text.extend_from_slice(b"Gone")?,
        Err(ConvFault::Again) => text.extend_from_slice(b"Again")?,
        Err(ConvFault::NoMemory) => text.extend_from_slice(b"NoMemory")?,
    }
    Ok(text)
}

// Whether an exchange gives this.
fn gives<C: Conv>(
    conv: &mut C,
    alloc: Global,
    messages: &Messages,
    want: &[u8],
) -> Result<bool, AllocError>
    requires { IsExchange messages.now }
{
    let answer = conv.talk(alloc, messages);
    Ok(told(alloc, &answer)?.as_slice() == want)
}

// A reader that gives one byte, and then fails.
#[derive(Drop)]
struct Broken {
    failed: bool,
}

impl Read for Broken {
    fn read(&mut self, into: &mut [u8]) -> io::Result<usize> {
        if self.failed {
            return Err(io::Error::from(ErrorKind::TimedOut));
        }
        self.failed = true;
        match into.first_mut() {
            Some(byte) => {
                *byte = b'x';
                Ok(1)
            }
            None => Ok(0),
        }
    }
}

#[test]
fn an_error_of_reader_or_writer_is_gone(rt: HostRuntime) -> Result<(), Fail> {
    let alloc = rt.alloc();
    let prompt = one(alloc, Style::EchoOn, b"login: ")?;
    let mut shown = Vec::new(alloc);
    let mut term = TermConv::new(Broken { failed: false }, &mut shown);
    assert!(rt; gives(&mut term, alloc, &prompt, b"Gone")?);
    let mut room = [0u8; 3];
    let mut term = TermConv::new(b"joe\n".as_slice(), room.as_mut_slice());
    assert!(rt; gives(&mut term, alloc, &prompt, b"Gone")?);
    Ok(())
}

#[test]
fn two_pipes_are_a_terminal(rt: HostRuntime) -> Result<(), Fail> {
    let alloc = rt.alloc();
    let login = login(alloc)?;
    let (keyboard, mut typing) = io::pipe(&rt)?;
    let (mut screen, showing) = io::pipe(&rt)?;
    typing.write_all(b"joe\nHello world!")?;
    drop(typing);
    let mut term = TermConv::new(keyboard, showing);
    assert!(rt; gives(&mut term, alloc, &login, b"|joe|Hello world!|")?);
    drop(term);
    let mut shown = Vec::new(alloc);
    screen.read_to_end(&mut shown)?;
    assert_eq!(rt; shown.as_slice(), b"hi\nlogin: Password: ".as_slice());
    Ok(())
}
