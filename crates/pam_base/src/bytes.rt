ghost use Rattle.std.specs.Prelude.{◌≡◌, ◌==◌, IfOk};
ghost use Rattle.std.specs.List.{position};
ghost use Rattle.std.specs.Str.{str_to_ascii_lowercase};
ghost use Rattle.pam_base.specs.Bytes.{IsFirstPlace};

use crate::fault::NoMemory;
use crate::text::Text;
use std::alloc::Global;

/// The position of the byte's first occurrence in the text, from 0; None if and only if it doesn't
/// occur.
pub fn first_place(byte: u8, text: &[u8]) -> Option<usize>
    ensures { IsFirstPlace result byte text.now }
{
    position_of(byte, text)
}

fn position_of(byte: u8, text: &[u8]) -> Option<usize>
    ensures { result ≡ position (λ b. b == byte) text.now }
{
    text.iter().position(|b| *b == byte)
}

/// A copy of a text with its ASCII letters in lower case.
pub fn lowercase(alloc: Global, text: &[u8]) -> Result<Text, NoMemory>
    ensures { IfOk result (λ lower. lower ≡ str_to_ascii_lowercase text.now) }
{
    let mut lower = Vec::from_slice(alloc, text)?;
    lower.as_mut_slice().make_ascii_lowercase();
    Ok(Text::from_vec(lower))
}
