ghost use Rattle.std.specs.Prelude.{◌≡◌, IfOk, position};
ghost use Rattle.mod_env.specs.Marks.{is_byte};
ghost use Rattle.mod_env.specs.Value.{at_byte, closed, is_sigil, next_piece, pieces_of, place, plain_next};

use crate::marks::{Mark, begins_with, is_byte, text_of};
use pam_base::{NoMemory, Sequence, Text};
use std::alloc::Global;

/// A piece of a value.
#[derive(Debug, Drop)]
pub enum Piece {
    Byte(u8),
    /// `${X}`, the variable of this name.
    Variable(Text),
    /// `@{X}`, the item of this name, or the user's home directory or shell.
    Item(Text),
}

/// A value, as it is written.
pub type Pieces = Sequence<Piece>;

// How a value begins.
#[derive(Drop)]
enum Next<'a> {
    Ended,
    /// It is malformed.
    Broken,
    One(Piece, &'a [Mark]),
}

/// The pieces of a value, if it is well formed.
pub fn pieces_of(alloc: Global, value: &[Mark]) -> Result<Option<Pieces>, NoMemory>
    ensures { IfOk result (λ pieces. pieces ≡ pieces_of value.now) }
{
    let mut pieces = Pieces::new(alloc);
    let mut rest = value;
    let mut left = value.len();
    while left > 0 {
        left -= 1;
        match next_piece(alloc, rest)? {
            Next::Ended => return Ok(Some(pieces)),
            Next::Broken => return Ok(None),
            Next::One(piece, followed) => {
                pieces.push(piece)?;
                rest = followed;
            }
        }
    }
    if rest.is_empty() {
        Ok(Some(pieces))
    } else {
        Ok(None)
    }
}

fn next_piece<'a>(alloc: Global, value: &'a [Mark]) -> Result<Next<'a>, NoMemory>
    ensures { IfOk result (λ next. plain_next next ≡ next_piece value.now) }
{
    match value {
        [] => Ok(Next::Ended),
        [mark, rest @ ..] => match mark {
            Mark::Plain(byte) => Ok(Next::One(Piece::Byte(*byte), rest)),
            Mark::Stray => Ok(Next::Broken),
            Mark::Byte(byte) => at_byte(alloc, *byte, rest),
        },
    }
}

// At a byte that isn't quoted: a place begins with a sigil and a brace.
fn at_byte<'a>(alloc: Global, byte: u8, rest: &'a [Mark]) -> Result<Next<'a>, NoMemory>
    ensures { IfOk result (λ next. plain_next next ≡ at_byte byte rest.now) }
{
    if is_sigil(byte) && begins_with(b"{", rest) {
        let name = &rest[1..];
        closed(alloc, byte, name, brace_place(name))
    } else {
        Ok(Next::One(Piece::Byte(byte), rest))
    }
}

fn is_sigil(byte: u8) -> bool
    ensures { result ≡ is_sigil byte }
{
    byte == b'$' || byte == b'@'
}

fn brace_place(marks: &[Mark]) -> Option<usize>
    ensures { result ≡ position (is_byte 125) marks.now }
{
    marks.iter().position(|mark| is_byte(b'}', *mark))
}

// A place whose name ends at this brace, if there is one.
fn closed<'a>(
    alloc: Global,
    sigil: u8,
    marks: &'a [Mark],
    brace: Option<usize>,
) -> Result<Next<'a>, NoMemory>
    requires { brace ≡ position (is_byte 125) marks.now }
    ensures { IfOk result (λ next. plain_next next ≡ closed sigil marks.now brace) }
{
    match brace {
        Some(n) => {
            let name = text_of(alloc, &marks[..n])?;
            Ok(Next::One(place(sigil, name), &marks[n + 1..]))
        }
        None => Ok(Next::Broken),
    }
}

fn place(sigil: u8, name: Text) -> Piece
    ensures { result ≡ place sigil name }
{
    if sigil == b'$' {
        Piece::Variable(name)
    } else {
        Piece::Item(name)
    }
}
