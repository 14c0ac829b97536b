ghost use Rattle.std.specs.Prelude.{◌≡◌, Bool, IfOk};
ghost use Rattle.pam_base.specs.White.{is_white};
ghost use Rattle.mod_env.specs.Marks.{begins_with, unspaced, is_byte, is_white_mark, marks_of, text_of};

use pam_base::{NoMemory, Text, is_white};
use std::alloc::Global;

/// A byte of a line, and whether a backslash quoted it.
#[derive(Clone, Copy, Debug, PartialEq, Eq)]
pub enum Mark {
    Byte(u8),
    /// A byte that a backslash quoted.
    Plain(u8),
    /// A backslash without a byte after it.
    Stray,
}

/// What a text consists of: bytes, or marks.
pub(crate) trait MaybeWhite {
    /// Whether it is white space.
    ghost white: { Self → Bool };

    /// Whether it is white space.
    fn is_white(&self) -> bool
        ensures { result ≡ white self.now };
}

impl MaybeWhite for u8 {
    ghost white = { is_white };

    fn is_white(&self) -> bool {
        is_white(*self)
    }
}

impl MaybeWhite for Mark {
    ghost white = { is_white_mark };

    fn is_white(&self) -> bool {
        is_white_mark(*self)
    }
}

/// The bytes of a text; a backslash quotes the next one.
#[tactic(auto, unfolding(crate::specs::Marks::marks_of))]
pub fn marks_of(alloc: Global, text: &[u8]) -> Result<Vec<Mark>, NoMemory>
    ensures { IfOk result (λ marks. marks.items ≡ marks_of text.now) }
{
    let mut marks = Vec::new(alloc);
    let mut escaped = false;
    let mut rest = text;
    while let [byte, after @ ..] = rest {
        if escaped {
            marks.push(Mark::Plain(*byte))?;
            escaped = false;
        } else if *byte == b'\\' {
            escaped = true;
        } else {
            marks.push(Mark::Byte(*byte))?;
        }
        rest = after;
    }
    if escaped {
        marks.push(Mark::Stray)?;
    }
    Ok(marks)
}

/// Whether the mark is this byte, and isn't quoted.
pub fn is_byte(wanted: u8, mark: Mark) -> bool
    ensures { result ≡ is_byte wanted mark }
{
    match mark {
        Mark::Byte(byte) => byte == wanted,
        Mark::Plain(_) => false,
        Mark::Stray => false,
    }
}

pub fn is_white_mark(mark: Mark) -> bool
    ensures { result ≡ is_white_mark mark }
{
    match mark {
        Mark::Byte(byte) => is_white(byte),
        Mark::Plain(_) => false,
        Mark::Stray => false,
    }
}

/// Whether the text begins with these bytes.
pub fn begins_with(word: &[u8], marks: &[Mark]) -> bool
    ensures { result ≡ begins_with word.now marks.now }
{
    let mut left = word;
    let mut rest = marks;
    while let [byte, bytes @ ..] = left {
        match rest {
            [mark, after @ ..] => {
                if !is_byte(*byte, *mark) {
                    return false;
                }
                left = bytes;
                rest = after;
            }
            [] => return false,
        }
    }
    true
}

/// What follows leading white space.
pub(crate) fn after_white<T: MaybeWhite>(text: &[T]) -> &[T]
    ensures { result.now ≡ unspaced T.white text.now }
{
    let mut rest = text;
    while let [first, after @ ..] = rest {
        if !first.is_white() {
            return rest;
        }
        rest = after;
    }
    rest
}

/// The bytes themselves.
pub fn text_of(alloc: Global, marks: &[Mark]) -> Result<Text, NoMemory>
    ensures { IfOk result (λ text. text ≡ text_of marks.now) }
{
    let mut text = Text::new(alloc);
    let mut rest = marks;
    while let [mark, after @ ..] = rest {
        match mark {
            Mark::Byte(byte) => text.push(*byte)?,
            Mark::Plain(byte) => text.push(*byte)?,
            Mark::Stray => {}
        }
        rest = after;
    }
    Ok(text)
}
