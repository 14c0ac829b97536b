ghost use Rattle.std.specs.Prelude.{◌≡◌, IfOk};
ghost use Rattle.std.specs.Option.{option_copied};
ghost use Rattle.mod_history.specs.History.{ReadsHistory, all_in, history_of, part_in, remembered_in};
ghost use Rattle.mod_history.specs.Renewal.{hashes_of, line_of};

use crate::distinct::are_distinct;
use pam_base::{Lines, NoMemory, Parts, Refuse, Sequence, Text, Texts};
use std::alloc::Global;

/// The text of a history file is malformed.
#[derive(Clone, Copy, Debug, PartialEq, Eq)]
pub struct Damaged;

/// The hashes of a user's earlier passwords, the oldest first.
#[derive(Debug, Drop)]
pub struct Remembered {
    pub name: Text,
    pub hashes: Texts,
}

/// The lines of a history file, in order.
pub type History = Sequence<Remembered>;

/// The lines in the text of a history file.
pub fn read_history(alloc: Global, text: &[u8]) -> Result<History, Refuse<Damaged>>
    ensures { ReadsHistory result text.now }
{
    history_of(alloc, text)?.ok_or(Refuse::Named(Damaged))
}

/// The same; None if the text is damaged.
#[tactic(auto, unfolding(crate::specs::History::history_of))]
pub(crate) fn history_of(alloc: Global, text: &[u8]) -> Result<Option<History>, NoMemory>
    ensures { IfOk result (λ found. found ≡ history_of text.now) }
{
    let mut lines = Lines::new(text);
    let Some(history) = read_lines(alloc, &mut lines)? else {
        return Ok(None);
    };
    if are_distinct(alloc, history.items())? {
        Ok(Some(history))
    } else {
        Ok(None)
    }
}

fn read_lines(alloc: Global, lines: &mut Lines<'_>) -> Result<Option<History>, NoMemory>
    ensures { IfOk result (λ found. found ≡ all_in remembered_in lines.old) }
{
    let mut history = History::new(alloc);
    while let Some(line) = lines.next_line() {
        match remembered_in(alloc, line)? {
            Some(remembered) => history.push(remembered)?,
            None => return Ok(None),
        }
    }
    Ok(Some(history))
}

// What a line has: a name, and hashes.
fn remembered_in(alloc: Global, line: &[u8]) -> Result<Option<Remembered>, NoMemory>
    ensures { IfOk result (λ remembered. remembered ≡ remembered_in line.now) }
{
    let mut parts = Parts::new(b':', line);
    let Some(name) = parts.next_part() else {
        return Ok(None);
    };
    let Some(name) = part_in(alloc, name)? else {
        return Ok(None);
    };
    match read_parts(alloc, &mut parts)? {
        Some(hashes) => Ok(Some(Remembered { name, hashes })),
        None => Ok(None),
    }
}

fn read_parts(alloc: Global, parts: &mut Parts<'_>) -> Result<Option<Texts>, NoMemory>
    ensures { IfOk result (λ found. found ≡ all_in part_in parts.old) }
{
    let mut texts = Texts::new(alloc);
    while let Some(part) = parts.next_part() {
        match part_in(alloc, part)? {
            Some(text) => texts.push(text)?,
            None => return Ok(None),
        }
    }
    Ok(Some(texts))
}

// A part, if it isn't empty.
fn part_in(alloc: Global, part: &[u8]) -> Result<Option<Text>, NoMemory>
    ensures { IfOk result (λ text. text ≡ part_in part.now) }
{
    if part.is_empty() {
        Ok(None)
    } else {
        Ok(Some(Text::from_bytes(alloc, part)?))
    }
}

/// The hashes of a user: those of the line with that name, if there is one.
pub(crate) fn hashes_of<'a>(user: &[u8], history: &'a History) -> &'a [Text]
    ensures { result.now ≡ hashes_of user.now history.now }
{
    match line_of(user, history) {
        Some(line) => line.hashes.items(),
        None => &[],
    }
}

fn line_of<'a>(user: &[u8], history: &'a History) -> Option<&'a Remembered>
    ensures { option_copied result ≡ line_of user.now history.now }
{
    history
        .items()
        .iter()
        .find(|line| line.name.bytes() == user)
}
