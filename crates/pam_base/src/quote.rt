ghost use Rattle.std.specs.Prelude.{◌≡◌, ◌++◌, ◌∷◌, ◌<◌, [], IfOk, IfSome, IsTrue, OnOk, OnErr, string_bytes};
ghost use Rattle.pam_base.specs.Quote.{quoted_text, quoted_byte, hex_digit};

use crate::fault::NoMemory;
use std::alloc::Global;

/// The bytes in a form that a report can print on one line: a byte from 0x20 to 0x7E is written as it is, except that a
/// backslash is written `\\`; any other byte is written `\x` and two lower-case hexadecimal digits.
pub fn quoted(alloc: Global, bytes: &[u8]) -> Result<String, NoMemory>
    ensures { IfOk result (λ text. string_bytes text ≡ quoted_text bytes.now) }
{
    let mut text = String::new(alloc);
    push_quoted(&mut text, bytes)?;
    Ok(text)
}

/// Adds the bytes in that form to a text.
pub fn push_quoted(text: &mut String, bytes: &[u8]) -> Result<(), NoMemory>
    ensures { OnOk result (string_bytes text.new ≡ string_bytes text.old ++ quoted_text bytes.now) }
{
    if let Some(plain) = plain_text(bytes) {
        text.push_str(plain)?;
        return Ok(());
    }
    for byte in bytes {
        quote_byte(text, *byte)?;
    }
    Ok(())
}

// The bytes as they are, if their quoted form is the same.
fn plain_text(bytes: &[u8]) -> Option<&str>
    ensures { IfSome result (λ plain. plain.now ≡ quoted_text bytes.now) }
{
    for byte in bytes {
        if !is_plain(*byte) {
            return None;
        }
    }
    match str::from_utf8(bytes) {
        Ok(plain) => Some(plain),
        Err(_) => None,
    }
}

fn is_plain(byte: u8) -> bool
    ensures { IsTrue result → quoted_byte byte ≡ byte ∷ [] }
{
    matches!(byte, b' '..=b'~') && byte != b'\\'
}

fn quote_byte(text: &mut String, byte: u8) -> Result<(), NoMemory>
    ensures { OnOk result (string_bytes text.new ≡ string_bytes text.old ++ quoted_byte byte) }
{
    match byte {
        b'\\' => text.push_str("\\\\")?,
        b' '..=b'~' => text.push(char::from(byte))?,
        _ => {
            text.push_str("\\x")?;
            text.push(hex_digit(byte / 16))?;
            text.push(hex_digit(byte % 16))?;
        }
    }
    Ok(())
}

fn hex_digit(digit: u8) -> char
    requires { digit < 16 }
    ensures { result ≡ hex_digit digit }
{
    if digit < 10 {
        char::from(b'0' + digit)
    } else {
        char::from(b'a' + (digit - 10))
    }
}
