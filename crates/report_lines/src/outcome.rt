ghost use Rattle.std.specs.Prelude.{◌≡◌, ◌++◌, IfOk, OnOk, string_bytes};
ghost use Rattle.report_lines.specs.Line.{result_text};
ghost use Rattle.report_lines.specs.Form.{Reads, result_of};
ghost use Rattle.report_lines.specs.Guess.{guessed_result, if_printed};
ghost use Rattle.report_lines.specs.Guesses.{result_in};
ghost use Rattle.report_lines.specs.Says.{bare_result, results};

use crate::answer::write_code_result;
use crate::form::{Form, ReportedOutcome};
use crate::names::{code_in, command_in, command_word};
use crate::printed::if_printed;
use crate::shown::{ShownGuess, guess_shown};
use crate::words::before_space;
use pam_base::{CallName, Code, NoMemory};
use std::alloc::Global;

/// What the line of a result may say.
#[derive(Debug, Drop)]
pub enum ResultGuess {
    Answered(CallName, ShownGuess),
    /// The program ended the transaction.
    Closed(Code),
}

/// Reads a result, by the line's word.
pub fn read_result(
    alloc: Global,
    line: &[u8],
    number: u32,
    word: &[u8],
    words: &[u8],
) -> Result<Option<Form>, NoMemory>
    ensures { Reads result
        (if_printed line.now (results number (guessed_result word.now words.now))) }
{
    let guess = guess_result(alloc, word, words)?;
    let mut text = String::new(alloc);
    guess.write(&mut text, number)?;
    let outcome = guess.outcome();
    Ok(if_printed(text.as_str(), line, Form::Result { number, outcome }))
}

fn guess_result(alloc: Global, word: &[u8], words: &[u8]) -> Result<ResultGuess, NoMemory>
    ensures { IfOk result (λ guess. result_in guess ≡ guessed_result word.now words.now) }
{
    if word == b"closed".as_slice() {
        Ok(ResultGuess::Closed(code_in(before_space(words))))
    } else {
        let shown = guess_shown(alloc, words)?;
        Ok(ResultGuess::Answered(command_in(word), shown))
    }
}

impl ResultGuess {
    // Adds the line that says it.
    fn write(&self, text: &mut String, number: u32) -> Result<(), NoMemory>
        ensures { OnOk result (string_bytes text.new ≡ string_bytes text.old
            ++ result_text number (result_in self.now)) }
    {
        match self {
            ResultGuess::Answered(command, shown) => {
                shown.write(text, number, command_word(*command))
            }
            ResultGuess::Closed(code) => write_code_result(text, number, "closed", *code),
        }
    }

    // The part of it that counts.
    fn outcome(&self) -> ReportedOutcome
        ensures { result_of result ≡ bare_result (result_in self.now) }
    {
        match self {
            ResultGuess::Answered(command, shown) => {
                ReportedOutcome::Answered(*command, shown.answer())
            }
            ResultGuess::Closed(_) => ReportedOutcome::Closed,
        }
    }
}
