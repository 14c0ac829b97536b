ghost use Rattle.std.specs.Prelude.{◌≡◌, ◌==◌};
ghost use Rattle.std.specs.List.{position};
ghost use Rattle.pam_base.specs.Number.{is_numeral};
ghost use Rattle.mod_basic.specs.Request.{delay_of, named_payload, plain_request, request_of};

use fail_delay::LONGEST_REQUEST;
use pam_base::{Style, are_digits, number_in};
use pam_room::value_in;

/// What an argument of pam_probe asks for.
#[derive(Clone, Copy, Debug)]
pub enum Request<'a> {
    /// To set module data.
    SetData { name: &'a [u8], payload: &'a [u8] },
    /// To send a message.
    Send { style: Style, text: &'a [u8] },
    /// To request a delay, in microseconds.
    Delay { micros: u32 },
    Nothing,
}

/// What an argument asks for: `set=NAME:PAYLOAD`, `say=TEXT`, `ask=TEXT` or `delay=MICROSECONDS`.
pub fn request_in<'a>(arg: &'a [u8]) -> Request<'a>
    ensures { plain_request result ≡ request_of arg.now }
{
    if let Some(text) = value_in(b"set=", arg) {
        named_payload(text)
    } else if let Some(text) = value_in(b"say=", arg) {
        Request::Send {
            style: Style::TextInfo,
            text,
        }
    } else if let Some(text) = value_in(b"ask=", arg) {
        Request::Send {
            style: Style::EchoOn,
            text,
        }
    } else if let Some(word) = value_in(b"delay=", arg) {
        delay_of(word)
    } else {
        Request::Nothing
    }
}

fn named_payload<'a>(text: &'a [u8]) -> Request<'a>
    ensures { plain_request result ≡ named_payload text.now }
{
    match colon_in(text) {
        Some(colon) => Request::SetData {
            name: &text[..colon],
            payload: &text[colon + 1..],
        },
        None => Request::Nothing,
    }
}

fn colon_in(text: &[u8]) -> Option<usize>
    ensures { result ≡ position (λ b. b == 58) text.now }
{
    text.iter().position(|byte| *byte == b':')
}

fn delay_of<'a>(word: &[u8]) -> Request<'a>
    ensures { plain_request result ≡ delay_of word.now }
{
    match number_in(word) {
        Some(micros) => Request::Delay {
            micros: micros.min(LONGEST_REQUEST),
        },
        // Ten digits may be more than 32 bits hold.
        None if is_numeral(word) => Request::Delay {
            micros: LONGEST_REQUEST,
        },
        None => Request::Nothing,
    }
}

fn is_numeral(word: &[u8]) -> bool
    ensures { result ≡ is_numeral word.now }
{
    !word.is_empty() && word.len() <= 10 && are_digits(word)
}
