ghost use Rattle.std.specs.Prelude.{◌≡◌, ◌++◌, ◌<◌, ◌∷◌, Some, None, [], length, IfOk, OnOk, IfSome, IfNone};
ghost use Rattle.std.specs.Option.{option_copied};
ghost use Rattle.pam_base.specs.Quote.{hex_digit};
ghost use Rattle.mod_tally.specs.Source.{byte_of_digits, hex_value, put_before, is_printed, spelled, spelled_byte, unspelled};

use pam_base::{NoMemory, Text};
use std::alloc::Global;

/// Writes the spelling of a source: a byte from 0x21 to 0x7E is itself, except that a backslash is
/// doubled; any other byte is written `\x` and two lower-case hexadecimal digits.
pub(crate) fn spell(out: &mut Vec<u8>, source: &[u8]) -> Result<(), NoMemory>
    ensures { OnOk result (out.new.items ≡ out.old.items ++ spelled source.now) }
{
    let mut rest = source;
    while let [byte, after @ ..] = rest {
        spell_byte(out, *byte)?;
        rest = after;
    }
    Ok(())
}

fn spell_byte(out: &mut Vec<u8>, byte: u8) -> Result<(), NoMemory>
    ensures { OnOk result (out.new.items ≡ out.old.items ++ spelled_byte byte) }
{
    if byte == b'\\' {
        out.extend_from_slice(b"\\\\")?;
    } else if is_printed(byte) {
        out.push(byte)?;
    } else {
        out.extend_from_slice(b"\\x")?;
        out.push(hex_digit(byte / 16))?;
        out.push(hex_digit(byte % 16))?;
    }
    Ok(())
}

fn hex_digit(digit: u8) -> u8
    requires { digit < 16 }
    ensures { result ≡ hex_digit digit }
{
    if digit < 10 {
        b'0' + digit
    } else {
        b'a' + (digit - 10)
    }
}

fn is_printed(byte: u8) -> bool
    ensures { result ≡ is_printed byte }
{
    33 <= byte && byte <= 126
}

/// The source that a word spells; None if it spells none.
#[tactic(auto, unfolding(crate::specs::Source::unspelled))]
pub(crate) fn unspelled(alloc: Global, word: &[u8]) -> Result<Option<Text>, NoMemory>
    ensures { IfOk result (λ source. source ≡ unspelled word.now) }
{
    let mut source = Text::new(alloc);
    let mut rest = word;
    while !rest.is_empty() {
        match first_spelled(rest) {
            Some(first) => {
                source.push(first.byte)?;
                rest = first.after;
            }
            None => return Ok(None),
        }
    }
    Ok(Some(source))
}

// A byte that was spelled, and what follows its spelling.
#[derive(Clone, Copy)]
struct Spelled<'a> {
    byte: u8,
    after: &'a [u8],
}

// The byte that is spelled at the beginning of a word.
#[tactic(auto, unfolding(crate::specs::Source::unspelled))]
fn first_spelled(word: &[u8]) -> Option<Spelled<'_>>
    requires { 0 < length word.now }
    ensures shorter { IfSome result (λ s. length s.after.now < length word.now) }
    ensures some { IfSome result (λ s. unspelled word.now
        ≡ put_before (Some s.byte) (unspelled s.after.now)) }
    ensures none { IfNone result (unspelled word.now ≡ None) }
{
    match word {
        [b'\\', b'\\', after @ ..] => Some(Spelled { byte: b'\\', after }),
        [b'\\', b'x', high, low, after @ ..] => {
            match byte_of_digits(hex_value(*high), hex_value(*low)) {
                Some(byte) => Some(Spelled { byte, after }),
                None => None,
            }
        }
        [b'\\', ..] => None,
        [byte, after @ ..] => {
            if is_printed(*byte) {
                Some(Spelled { byte: *byte, after })
            } else {
                None
            }
        }
        [] => None,
    }
}

fn hex_value(byte: u8) -> Option<u8>
    ensures value { result ≡ hex_value byte }
    ensures few { IfSome result (λ v. v < 16) }
{
    match byte {
        b'0'..=b'9' => Some(byte - b'0'),
        b'a'..=b'f' => Some(byte - 87),
        _ => None,
    }
}

fn byte_of_digits(high: Option<u8>, low: Option<u8>) -> Option<u8>
    requires few_high { IfSome high (λ v. v < 16) }
    requires few_low { IfSome low (λ v. v < 16) }
    ensures { result ≡ byte_of_digits high low }
{
    let (Some(high), Some(low)) = (high, low) else {
        return None;
    };
    let byte = 16 * high + low;
    if is_printed(byte) { None } else { Some(byte) }
}
