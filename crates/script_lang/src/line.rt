ghost use Rattle.std.specs.Prelude.{◌≡◌, IfOk, IfErr};
ghost use Rattle.script_lang.specs.Fit.{IsFit};
ghost use Rattle.script_lang.specs.Line.{parsed, command_line, is_blank, without_return, IsRefusal};

use crate::call::line_made;
use crate::command::command_named;
use crate::cut::{first_word, has_its_words};
use crate::value::values_at;
use pam_base::{Refuse, ScriptKind, Step};
use std::alloc::Global;

/// The maximum length of a line in bytes, without its end.
const MAX_LINE: usize = 512;

/// What a line of a script asks for.
#[derive(Debug, Drop)]
pub enum Line {
    /// Nothing: the line is empty or a comment.
    Blank,
    /// A call of the application.
    Step(Step),
    /// Sets the clock, to at most 10^12 seconds since 1970.
    At(u64),
    /// Sets the clock's random word, below 10^19.
    Random(u64),
    /// Sets the user ID of the calling process.
    Caller(u32),
}

/// Reads one line of a script, without its newline; one carriage return at its end is dropped.
///
/// The fault is the first of these that applies: `LineTooLong`, if more than 512 bytes are left;
/// `BadWord`, if the first word isn't a command or the number of words is wrong; then the leftmost
/// word that isn't of its form decides, `BadNumeral` if a number is expected, else `BadWord`. Only
/// a line without a fault allocates; if that fails, NoMemory is returned.
pub fn parse(alloc: Global, line: &[u8]) -> Result<Line, Refuse<ScriptKind>>
    ensures ok { IfOk result (λ found. parsed line.now ≡ Ok found) }
    ensures err { IfErr result (λ refusal. IsRefusal refusal (parsed line.now)) }

    // A start has the name of a service, a reply has at most 512 bytes, and a time is one that a
    // clock can be set to.
    ensures fit { IfOk result IsFit }
{
    let text = without_return(line);
    if text.len() > MAX_LINE {
        return Err(Refuse::Named(ScriptKind::LineTooLong));
    }
    if is_blank(text) {
        return Ok(Line::Blank);
    }
    command_line(alloc, text)
}

fn command_line(alloc: Global, line: &[u8]) -> Result<Line, Refuse<ScriptKind>>
    ensures ok { IfOk result (λ found. command_line line.now ≡ Ok found) }
    ensures err { IfErr result (λ refusal. IsRefusal refusal (command_line line.now)) }
{
    let Some(command) = command_named(first_word(line)) else {
        return Err(Refuse::Named(ScriptKind::BadWord));
    };
    let places = command.places();
    if !has_its_words(places, line) {
        return Err(Refuse::Named(ScriptKind::BadWord));
    }
    match values_at(places, line) {
        Ok(values) => Ok(line_made(alloc, command, values)?),
        Err(fault) => Err(Refuse::Named(fault)),
    }
}

fn without_return(line: &[u8]) -> &[u8]
    ensures { result.now ≡ without_return line.now }
{
    line.strip_suffix(b"\r").unwrap_or(line)
}

fn is_blank(text: &[u8]) -> bool
    ensures { result ≡ is_blank text.now }
{
    matches!(text, [] | [b'#', ..])
}
