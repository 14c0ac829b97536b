ghost use Rattle.std.specs.Prelude.{◌≡◌, ◌≤◌, ◌++◌, ◌==◌, ◌∷◌, [], true, length, position, IfOk, OnOk};
ghost use Rattle.std.specs.Char.{is_ascii_digit};
ghost use Rattle.std.specs.List.{list_all};
ghost use Rattle.pam_base.specs.Number.{value_of_digits};
ghost use Rattle.std.specs.Fmt.{decimal};
ghost use Rattle.mod_tally.specs.Source.{put_before};
ghost use Rattle.mod_tally.specs.Tally.{ReadsTally, all_in, failures_of_version, counting, counts, failure_in, failure_line, failures_of, is_kind, latest, moment_of, source_text, tally_text, version_of, with_origin, with_source};

use crate::source::{spell, unspelled};
use pam_base::{Lines, NoMemory, Refuse, Sequence, Text, are_digits};
use std::alloc::Global;

/// The text of a tally file is malformed.
#[derive(Clone, Copy, Debug, PartialEq, Eq)]
pub struct Damaged;

/// A failure of a user: its time in seconds since 1970, and where it came from: R, T or S for a
/// remote host, a terminal or a service with its name, or U if no more is known.
#[derive(Debug, Drop)]
pub struct Failure {
    pub moment: u64,
    pub kind: u8,
    pub source: Text,
}

/// The failures of a user, in the order of the file.
pub type Failures = Sequence<Failure>;

// The form of a tally file: version 1 has only times.
#[derive(Clone, Copy, Debug)]
pub enum Version {
    One,
    Two,
}

/// The failures in the text of a tally file, of version 1 or 2.
pub fn failures(alloc: Global, text: &[u8]) -> Result<Failures, Refuse<Damaged>>
    ensures { ReadsTally result text.now }
{
    read_failures(alloc, text)?.ok_or(Refuse::Named(Damaged))
}

/// The same; None if the text is damaged.
#[tactic(auto, unfolding(crate::specs::Tally::failures_of))]
pub(crate) fn read_failures(alloc: Global, text: &[u8]) -> Result<Option<Failures>, NoMemory>
    ensures { IfOk result (λ found. found ≡ failures_of text.now) }
{
    if !text.ends_with(b"\n") {
        return Ok(None);
    }
    let mut lines = Lines::new(text);
    let Some(header) = lines.next_line() else {
        return Ok(None);
    };
    match version_of(header) {
        Some(version) => read_lines(alloc, version, &mut lines),
        None => Ok(None),
    }
}

fn version_of(header: &[u8]) -> Option<Version>
    ensures { result ≡ version_of header.now }
{
    if header == b"faillock 2".as_slice() {
        Some(Version::Two)
    } else if header == b"faillock 1".as_slice() {
        Some(Version::One)
    } else {
        None
    }
}

// The failures of the lines; None if one is malformed.
fn read_lines(
    alloc: Global,
    version: Version,
    lines: &mut Lines<'_>,
) -> Result<Option<Failures>, NoMemory>
    ensures { IfOk result (λ found. found ≡ all_in (failure_in version) lines.old) }
{
    let mut failures = Failures::new(alloc);
    while let Some(line) = lines.next_line() {
        match read_line(alloc, version, line)? {
            Some(failure) => failures.push(failure)?,
            None => return Ok(None),
        }
    }
    Ok(Some(failures))
}

fn read_line(alloc: Global, version: Version, line: &[u8]) -> Result<Option<Failure>, NoMemory>
    ensures { IfOk result (λ failure. failure ≡ failure_in version line.now) }
{
    match version {
        Version::One => match moment_of(line) {
            Some(moment) => Ok(Some(unknown_at(alloc, moment))),
            None => Ok(None),
        },
        Version::Two => match space_in(line) {
            Some(space) => read_origin(alloc, &line[space + 1..], moment_of(&line[..space])),
            None => Ok(None),
        },
    }
}

fn space_in(line: &[u8]) -> Option<usize>
    ensures { result ≡ position (λ b. b == 32) line.now }
{
    line.iter().position(|byte| *byte == b' ')
}

fn moment_of(word: &[u8]) -> Option<u64>
    ensures { result ≡ moment_of word.now }
{
    if !word.is_empty() && word.len() <= 13 && are_digits(word) {
        Some(value_of_digits(word))
    } else {
        None
    }
}

fn unknown_at(alloc: Global, moment: u64) -> Failure
    ensures { result ≡ record { moment = moment; kind = 85; source = [] } }
{
    Failure {
        moment,
        kind: b'U',
        source: Text::new(alloc),
    }
}

// What follows the time: U, or the kind and the source.
fn read_origin(alloc: Global, word: &[u8], moment: Option<u64>) -> Result<Option<Failure>, NoMemory>
    ensures { IfOk result (λ failure. failure ≡ with_origin word.now moment) }
{
    let Some(moment) = moment else {
        return Ok(None);
    };
    match word {
        [] => Ok(None),
        [kind] => {
            if *kind == b'U' {
                Ok(Some(unknown_at(alloc, moment)))
            } else {
                Ok(None)
            }
        }
        [kind, space, spelling @ ..] => {
            if is_kind(*kind) && *space == b' ' {
                let source = unspelled(alloc, spelling)?;
                Ok(with_source(moment, *kind, source))
            } else {
                Ok(None)
            }
        }
    }
}

fn is_kind(kind: u8) -> bool
    ensures { result ≡ is_kind kind }
{
    kind == b'R' || kind == b'T' || kind == b'S'
}

fn with_source(moment: u64, kind: u8, source: Option<Text>) -> Option<Failure>
    ensures { result ≡ with_source moment kind source }
{
    let source = source?;
    if source.is_empty() {
        None
    } else {
        Some(Failure {
            moment,
            kind,
            source,
        })
    }
}

// The value of at most 13 digits.
fn value_of_digits(digits: &[u8]) -> u64
    requires few { length digits.now ≤ 13 }
    requires digits { list_all is_ascii_digit digits.now ≡ true }
    ensures { result ≡ value_of_digits digits.now }
{
    let mut value: u64 = 0;
    for digit in digits {
        value = 10 * value + u64::from(*digit - b'0');
    }
    value
}
