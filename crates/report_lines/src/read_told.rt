ghost use Rattle.std.specs.Prelude.{◌≡◌, ◌++◌, Some, None, OnOk, if◌then◌else◌, string_bytes};
ghost use Rattle.report_lines.specs.Line.{told_cleanup, told_missing, told_text, told_variable, told_visit};
ghost use Rattle.report_lines.specs.Form.{Reads, told_of};
ghost use Rattle.report_lines.specs.Guess.{guessed_cleanup, guessed_message, guessed_seen, guessed_told, guessed_wait, has_form, if_printed};
ghost use Rattle.report_lines.specs.Guesses.{IsToldGuess, told_in};
ghost use Rattle.report_lines.specs.Says.{bare_told, tells};
ghost use Rattle.report_lines.specs.Words.{after_space, unquoted};

use crate::form::Form;
use crate::names::{code_in, style_in};
use crate::printed::if_printed;
use crate::read_quoted::unquoted;
use crate::told::{
    write_cleanup, write_missing, write_said, write_variable, write_visit, write_wait,
};
use crate::words::{after_space, before_last, before_space, last_word, number_of, status_of};
use handler_chain::RecordedLine;
use pam_base::{Code, NoMemory, Style, Text, first_place};
use std::alloc::Global;

/// What a line before a result may say.
#[derive(Debug, Drop)]
pub enum ToldGuess {
    Message {
        style: Style,
        text: Text,
    },
    Visit(RecordedLine),
    /// The names of the module and of its data are one text, with a space between them.
    Cleanup {
        id: u64,
        status: u32,
        note: u64,
        names: Text,
    },
    Wait {
        code: Code,
        asked: u64,
        wait: u64,
    },
    Missing(Text),
    Variable(Text),
}

/// What a line may say, by its word; None if it has the word of a result.
pub fn guess_told(alloc: Global, word: &[u8], words: &[u8]) -> Result<Option<ToldGuess>, NoMemory>
    ensures { IsToldGuess result (guessed_told word.now words.now) }
{
    if word == b"say".as_slice() {
        guess_message(alloc, words)
    } else if word == b"line".as_slice() {
        guess_visit(alloc, words)
    } else if word == b"clean".as_slice() {
        guess_cleanup(alloc, words)
    } else if word == b"wait".as_slice() {
        Ok(Some(guess_wait(words)))
    } else if word == b"note".as_slice() {
        guess_missing(alloc, words)
    } else if word == b"env".as_slice() {
        guess_variable(alloc, words)
    } else {
        Ok(None)
    }
}

// A message: `STYLE TEXT`.
fn guess_message(alloc: Global, words: &[u8]) -> Result<Option<ToldGuess>, NoMemory>
    ensures { IsToldGuess result (Some (guessed_message words.now)) }
{
    Ok(Some(ToldGuess::Message {
        style: style_in(number_of(before_space(words))),
        text: unquoted(alloc, after_space(words))?,
    }))
}

// A rule that was run: `RULE MODULE NAME NUMBER`.
fn guess_visit(alloc: Global, words: &[u8]) -> Result<Option<ToldGuess>, NoMemory>
    ensures { IsToldGuess result (Some (told_visit (guessed_seen words.now))) }
{
    let named = before_last(after_space(words));
    Ok(Some(ToldGuess::Visit(RecordedLine {
        place: number_of(before_space(words)),
        name: unquoted(alloc, before_last(named))?,
        answer: code_in(last_word(named)),
    })))
}

// Module data that was cleaned up: `ID STATUS NOTE MODULE DATA`.
fn guess_cleanup(alloc: Global, words: &[u8]) -> Result<Option<ToldGuess>, NoMemory>
    ensures { IsToldGuess result (Some (told_cleanup (guessed_cleanup words.now))) }
{
    let after_id = after_space(words);
    let after_status = after_space(after_id);
    Ok(Some(ToldGuess::Cleanup {
        id: number_of(before_space(words)),
        status: status_of(before_space(after_id)),
        note: number_of(before_space(after_status)),
        names: unquoted(alloc, after_space(after_status))?,
    }))
}

// A delay: `NAME NUMBER ASKED WAIT`.
fn guess_wait(words: &[u8]) -> ToldGuess
    ensures { told_in result ≡ guessed_wait words.now }
{
    let past_code = after_space(after_space(words));
    ToldGuess::Wait {
        code: code_in(before_space(words)),
        asked: number_of(before_space(past_code)),
        wait: number_of(after_space(past_code)),
    }
}

// A module that is missing: `missing MODULE`.
fn guess_missing(alloc: Global, words: &[u8]) -> Result<Option<ToldGuess>, NoMemory>
    ensures { IsToldGuess result (Some (told_missing (unquoted (after_space words.now)))) }
{
    Ok(Some(ToldGuess::Missing(unquoted(alloc, after_space(words))?)))
}

// A variable: `NAME=VALUE`.
fn guess_variable(alloc: Global, words: &[u8]) -> Result<Option<ToldGuess>, NoMemory>
    ensures { IsToldGuess result (Some (told_variable (unquoted words.now))) }
{
    Ok(Some(ToldGuess::Variable(unquoted(alloc, words)?)))
}

/// Reads a line before a result: what it may say, if that is printed as the line.
pub fn read_told(
    alloc: Global,
    line: &[u8],
    number: u32,
    guess: ToldGuess,
) -> Result<Option<Form>, NoMemory>
    ensures { Reads result (if has_form (told_in guess)
        then if_printed line.now (tells number (told_in guess)) else None) }
{
    if !guess.has_form() {
        return Ok(None);
    }
    let mut text = String::new(alloc);
    guess.write(&mut text, number)?;
    let visit = guess.into_visit();
    Ok(if_printed(text.as_str(), line, Form::Told { number, visit }))
}

impl ToldGuess {
    // Whether it can be printed: a variable has a `=`.
    fn has_form(&self) -> bool
        ensures { result ≡ has_form (told_in self.now) }
    {
        match self {
            ToldGuess::Variable(text) => first_place(b'=', text.bytes()).is_some(),
            _ => true,
        }
    }

    // Adds the line that says it.
    fn write(&self, text: &mut String, number: u32) -> Result<(), NoMemory>
        ensures { OnOk result (string_bytes text.new ≡ string_bytes text.old
            ++ told_text number (told_in self.now)) }
    {
        match self {
            ToldGuess::Message {
                style,
                text: message,
            } => write_said(text, number, *style, message.bytes()),
            ToldGuess::Visit(seen) => {
                write_visit(text, number, seen.place, seen.name.bytes(), seen.answer)
            }
            ToldGuess::Cleanup {
                id,
                status,
                note,
                names,
            } => {
                let owner = before_space(names.bytes());
                let datum = after_space(names.bytes());
                write_cleanup(text, number, *id, *status, *note, owner, datum)
            }
            ToldGuess::Wait { code, asked, wait } => {
                write_wait(text, number, *code, *asked, *wait)
            }
            ToldGuess::Missing(name) => write_missing(text, number, name.bytes()),
            ToldGuess::Variable(variable) => write_variable(text, number, variable.bytes()),
        }
    }

    // The line of a stack that it says was run.
    fn into_visit(self) -> Option<RecordedLine>
        ensures { told_of result ≡ bare_told (told_in self) }
    {
        match self {
            ToldGuess::Visit(seen) => Some(seen),
            _ => None,
        }
    }
}
