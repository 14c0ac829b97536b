ghost use Rattle.std.specs.Prelude.{◌≡◌, ◌+◌, ◌*◌, ◌%◌, ◌++◌, IfOk, OnOk};
ghost use Rattle.report_lines.specs.Words.{unquoted};
ghost use Rattle.report_lines.specs.Unquote.{state_of, state_past, bytes_after};

use crate::words::digit_value;
use pam_base::{NoMemory, Text};
use std::alloc::Global;

// The state of reading a quoted text: between two bytes, after a backslash, after \x, after \x and
// a digit.
#[derive(Clone, Copy)]
pub enum Reading {
    Between,
    Escaped,
    Coded,
    HalfCoded(u32),
}

/// The bytes that a quoted text may mean.
pub fn unquoted(alloc: Global, text: &[u8]) -> Result<Text, NoMemory>
    ensures { IfOk result (λ bytes. bytes ≡ unquoted text.now) }
{
    let mut bytes = Vec::new(alloc);
    let mut reading = Reading::Between;
    for byte in text {
        reading = read_byte(reading, *byte, &mut bytes)?;
    }
    Ok(Text::from_vec(bytes))
}

fn read_byte(reading: Reading, byte: u8, bytes: &mut Vec<u8>) -> Result<Reading, NoMemory>
    ensures state { IfOk result (λ next. state_of next ≡ state_past (state_of reading) byte) }
    ensures bytes { OnOk result (bytes.new.items
        ≡ bytes.old.items ++ bytes_after (state_of reading) byte) }
{
    match reading {
        Reading::Between if byte == b'\\' => Ok(Reading::Escaped),
        Reading::Escaped if byte == b'x' => Ok(Reading::Coded),
        Reading::Between | Reading::Escaped => {
            bytes.push(byte)?;
            Ok(Reading::Between)
        }
        Reading::Coded => Ok(Reading::HalfCoded(digit_value(byte))),
        Reading::HalfCoded(high) => {
            bytes.push(coded_byte(high, digit_value(byte)))?;
            Ok(Reading::Between)
        }
    }
}

fn coded_byte(high: u32, low: u32) -> u8
    ensures { result ≡ (16 * high + low) % 256 }
{
    ((16 * u64::from(high) + u64::from(low)) % 256) as u8
}
