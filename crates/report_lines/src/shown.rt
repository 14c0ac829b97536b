ghost use Rattle.std.specs.Prelude.{◌≡◌, ◌++◌, Some, OnOk, string_bytes};
ghost use Rattle.report_lines.specs.Line.{shows_fault, shows_value, shown_words, words_text};
ghost use Rattle.report_lines.specs.Form.{shown_of};
ghost use Rattle.report_lines.specs.Guess.{guessed_answer, guessed_refusal, guessed_shown};
ghost use Rattle.report_lines.specs.Guesses.{IsShownGuess, shown_in};
ghost use Rattle.report_lines.specs.Says.{bare_shown};
ghost use Rattle.report_lines.specs.Words.{unquoted};

use crate::answer::{
    write_code_result, write_count_result, write_pending_result, write_refusal_result,
    write_result, write_value_result,
};
use crate::form::ReportedAnswer;
use crate::names::{code_in, fault_in, func_in};
use crate::read_quoted::unquoted;
use crate::words::{after_space, before_last, before_space, last_word, number_of};
use pam_base::{Code, FaultKind, Func, NoMemory, Text, are_digits};
use std::alloc::Global;

/// What the result of a command may say.
#[derive(Debug, Drop)]
pub enum ShownGuess {
    Code(Code),
    /// Why a start was refused.
    Fault {
        file: Text,
        line: u64,
        kind: FaultKind,
    },
    Value(Option<Text>),
    Count(u64),
    /// No transaction is open.
    NotOpen,
    /// A transaction is open already.
    AlreadyOpen,
    /// No transaction can have the number.
    BadNumber,
    /// It waits for the pending call of this function.
    Pending(Func),
}

/// What a result may say, by the first of its words.
pub fn guess_shown(alloc: Global, words: &[u8]) -> Result<ShownGuess, NoMemory>
    ensures { IsShownGuess result (guessed_shown words.now) }
{
    let word = before_space(words);
    if are_digits(word) {
        Ok(ShownGuess::Count(number_of(word)))
    } else if word == b"refused".as_slice() {
        guess_refusal(alloc, after_space(words))
    } else if word == b"set".as_slice() {
        guess_set(alloc, after_space(words))
    } else if word == b"unset".as_slice() {
        Ok(ShownGuess::Value(None))
    } else if word == b"not".as_slice() {
        Ok(ShownGuess::NotOpen)
    } else if word == b"already".as_slice() {
        Ok(ShownGuess::AlreadyOpen)
    } else if word == b"bad".as_slice() {
        Ok(ShownGuess::BadNumber)
    } else {
        Ok(guess_answer(words))
    }
}

// Why a start was refused: `FILE LINE NAME NUMBER`.
fn guess_refusal(alloc: Global, words: &[u8]) -> Result<ShownGuess, NoMemory>
    ensures { IsShownGuess result (shows_fault (guessed_refusal words.now)) }
{
    let named = before_last(words);
    let placed = before_last(named);
    Ok(ShownGuess::Fault {
        file: unquoted(alloc, before_last(placed))?,
        line: number_of(last_word(placed)),
        kind: fault_in(last_word(named)),
    })
}

// A value that is set.
fn guess_set(alloc: Global, words: &[u8]) -> Result<ShownGuess, NoMemory>
    ensures { IsShownGuess result (shows_value (Some (unquoted words.now))) }
{
    Ok(ShownGuess::Value(Some(unquoted(alloc, words)?)))
}

// A code, or the pending call that another one waits for: `NAME NUMBER`, or `ABORT 26 pending
// NAME`.
fn guess_answer(words: &[u8]) -> ShownGuess
    ensures { shown_in result ≡ guessed_answer words.now }
{
    let past_code = after_space(after_space(words));
    if before_space(past_code) == b"pending".as_slice() {
        ShownGuess::Pending(func_in(after_space(past_code)))
    } else {
        ShownGuess::Code(code_in(before_space(words)))
    }
}

impl ShownGuess {
    /// Adds the line of the result of this command that says it.
    pub fn write(&self, text: &mut String, number: u32, command: &str) -> Result<(), NoMemory>
        ensures { OnOk result (string_bytes text.new ≡ string_bytes text.old
            ++ words_text number command.now (shown_words (shown_in self.now))) }
    {
        match self {
            ShownGuess::Code(code) => write_code_result(text, number, command, *code),
            ShownGuess::Fault { file, line, kind } => {
                write_refusal_result(text, number, command, file.bytes(), *line, *kind)
            }
            ShownGuess::Value(value) => write_value_result(text, number, command, value),
            ShownGuess::Count(count) => {
                write_count_result(text, number, command, *count as usize)
            }
            ShownGuess::NotOpen => write_result(text, number, command, "not open"),
            ShownGuess::AlreadyOpen => write_result(text, number, command, "already open"),
            ShownGuess::BadNumber => write_result(text, number, command, "bad number"),
            ShownGuess::Pending(func) => write_pending_result(text, number, command, *func),
        }
    }

    /// The part of it that counts.
    pub fn answer(&self) -> ReportedAnswer
        ensures { shown_of result ≡ bare_shown (shown_in self.now) }
    {
        match self {
            ShownGuess::Code(code) => ReportedAnswer::Code(*code),
            ShownGuess::Fault { .. } => ReportedAnswer::Fault,
            ShownGuess::Value(_) => ReportedAnswer::Value,
            ShownGuess::Count(_) => ReportedAnswer::Count,
            ShownGuess::NotOpen => ReportedAnswer::NotOpen,
            ShownGuess::AlreadyOpen => ReportedAnswer::AlreadyOpen,
            ShownGuess::BadNumber => ReportedAnswer::BadNumber,
            ShownGuess::Pending(func) => ReportedAnswer::Pending(*func),
        }
    }
}
