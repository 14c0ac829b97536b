ghost use Rattle.std.specs.Prelude.{◌≡◌};
ghost use Rattle.report_lines.specs.Form.{Reads};
ghost use Rattle.report_lines.specs.Guess.{read_line, read_numbered};

use crate::form::Form;
use crate::outcome::read_result;
use crate::read_last::read_last;
use crate::read_told::{guess_told, read_told};
use crate::words::{after_space, before_space, number_of};
use pam_base::{NoMemory, are_digits};
use std::alloc::Global;

/// What a line of a report says, given without its newline; None if and only if it has none of the
/// forms.
pub fn read_line(alloc: Global, line: &[u8]) -> Result<Option<Form>, NoMemory>
    ensures { Reads result (read_line line.now) }
{
    if !are_digits(before_space(line)) {
        return read_last(alloc, line);
    }
    let number = number_of(before_space(line));
    let after_number = after_space(line);
    read_numbered(
        alloc,
        line,
        number,
        before_space(after_number),
        after_space(after_number),
    )
}

// Reads a line that begins with a number, by the word after it.
fn read_numbered(
    alloc: Global,
    line: &[u8],
    number: u64,
    word: &[u8],
    words: &[u8],
) -> Result<Option<Form>, NoMemory>
    ensures { Reads result (read_numbered line.now number word.now words.now) }
{
    if number > u64::from(u32::MAX) {
        return Ok(None);
    }
    let number = number as u32;
    match guess_told(alloc, word, words)? {
        Some(guess) => read_told(alloc, line, number, guess),
        None => read_result(alloc, line, number, word, words),
    }
}
