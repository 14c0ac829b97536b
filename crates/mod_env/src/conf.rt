ghost use Rattle.std.specs.Prelude.{◌≡◌, ◌≤◌, ℕ, List, IfOk, Some, drop, length, position, option_map};
ghost use Rattle.std.specs.List.{after_first, before_first};
ghost use Rattle.pam_base.specs.White.{is_white};
ghost use Rattle.mod_env.specs.Conf.{at_key, at_value, conf_of, counts, ends_word, entry_at, next_setting, no_values, plain_setting, quoted, unquoted, values_of, with_value};
ghost use Rattle.mod_env.specs.Marks.{is_byte, is_white_mark};

use crate::marks::{Mark, after_white, begins_with, is_byte, is_white_mark, marks_of};
use crate::value::{Pieces, pieces_of};
use pam_base::{Lines, NoMemory, Sequence, Text, first_place, is_white};
use std::alloc::Global;

/// Which value of a variable a setting gives.
#[derive(Clone, Copy, Debug, PartialEq, Eq)]
pub enum Key {
    Default,
    Override,
}

/// The values of a variable that are given, as they are written.
#[derive(Debug, Drop)]
pub struct Values {
    pub default: Option<Pieces>,
    pub overriding: Option<Pieces>,
}

/// A variable, and its values.
#[derive(Debug, Drop)]
pub struct EnvLine {
    pub name: Text,
    pub values: Values,
}

/// Variables, in the order of their lines.
pub type Entries = Sequence<EnvLine>;

// How the settings of a line begin.
#[derive(Clone, Copy)]
enum Setting<'a> {
    Ended,
    /// They are malformed.
    Broken,
    /// A key, its value, and what follows it.
    One(Key, &'a [Mark], &'a [Mark]),
}

/// The variables of a file of `pam_env.conf(5)`; None if a line that counts is malformed.
pub fn conf_of(alloc: Global, text: &[u8]) -> Result<Option<Entries>, NoMemory>
    ensures { IfOk result (λ entries. entries ≡ conf_of text.now) }
{
    let mut entries = Entries::new(alloc);
    let mut lines = Lines::new(text);
    while let Some(line) = lines.next_line() {
        let line = after_white(line);
        if counts(line) {
            match entry_at(alloc, line)? {
                Some(entry) => entries.push(entry)?,
                None => return Ok(None),
            }
        }
    }
    Ok(Some(entries))
}

// Whether a line counts: it isn't all white space, nor a comment.
fn counts(line: &[u8]) -> bool
    ensures { result ≡ counts line.now }
{
    match line {
        [] => false,
        [first, ..] => *first != b'#',
    }
}

fn entry_at(alloc: Global, text: &[u8]) -> Result<Option<EnvLine>, NoMemory>
    ensures { IfOk result (λ entry. entry ≡ entry_at text.now) }
{
    let name = name_at(text);
    if first_place(b'=', name).is_some() {
        return Ok(None);
    }
    let marks = marks_of(alloc, after_name(text))?;
    match values_of(alloc, &marks)? {
        Some(values) => Ok(Some(EnvLine {
            name: Text::from_bytes(alloc, name)?,
            values,
        })),
        None => Ok(None),
    }
}

fn name_at(text: &[u8]) -> &[u8]
    ensures { result.now ≡ before_first is_white text.now }
{
    match white_place(text) {
        Some(n) => &text[..n],
        None => text,
    }
}

fn after_name(text: &[u8]) -> &[u8]
    ensures { result.now ≡ after_first is_white text.now }
{
    match white_place(text) {
        Some(n) => &text[n + 1..],
        None => b"",
    }
}

fn white_place(text: &[u8]) -> Option<usize>
    ensures { result ≡ position is_white text.now }
{
    text.iter().position(|byte| is_white(*byte))
}

// The values in what follows a name, if it is well formed.
fn values_of(alloc: Global, marks: &[Mark]) -> Result<Option<Values>, NoMemory>
    ensures { IfOk result (λ values. values ≡ values_of marks.now) }
{
    let mut values = Values {
        default: None,
        overriding: None,
    };
    let mut rest = marks;
    let mut left = marks.len();
    while left > 0 {
        left -= 1;
        match next_setting(rest) {
            Setting::Ended => return Ok(Some(values)),
            Setting::Broken => return Ok(None),
            Setting::One(key, value, followed) => match pieces_of(alloc, value)? {
                Some(pieces) => {
                    values = with_value(key, pieces, values);
                    rest = followed;
                }
                None => return Ok(None),
            },
        }
    }
    if after_white(rest).is_empty() {
        Ok(Some(values))
    } else {
        Ok(None)
    }
}

fn with_value(key: Key, pieces: Pieces, values: Values) -> Values
    ensures { result ≡ with_value key pieces values }
{
    match key {
        Key::Default => Values {
            default: Some(pieces),
            overriding: values.overriding,
        },
        Key::Override => Values {
            default: values.default,
            overriding: Some(pieces),
        },
    }
}

fn next_setting(marks: &[Mark]) -> Setting<'_>
    ensures { plain_setting result ≡ next_setting marks.now }
{
    at_key(after_white(marks))
}

fn at_key(marks: &[Mark]) -> Setting<'_>
    ensures { plain_setting result ≡ at_key marks.now }
{
    if marks.is_empty() {
        Setting::Ended
    } else if begins_with(b"DEFAULT=", marks) {
        at_default(marks)
    } else if begins_with(b"OVERRIDE=", marks) {
        at_override(marks)
    } else {
        Setting::Broken
    }
}

// After `DEFAULT=`.
fn at_default(marks: &[Mark]) -> Setting<'_>
    requires { 8 ≤ length marks.now }
    ensures { plain_setting result ≡ at_value Key.Default (drop 8 marks.now) }
{
    at_value(Key::Default, &marks[8..])
}

// After `OVERRIDE=`.
fn at_override(marks: &[Mark]) -> Setting<'_>
    requires { 9 ≤ length marks.now }
    ensures { plain_setting result ≡ at_value Key.Override (drop 9 marks.now) }
{
    at_value(Key::Override, &marks[9..])
}

fn at_value(key: Key, marks: &[Mark]) -> Setting<'_>
    ensures { plain_setting result ≡ at_value key marks.now }
{
    if begins_with(b"\"", marks) {
        let value = &marks[1..];
        quoted(key, value, quote_place(value))
    } else {
        unquoted(key, marks, white_mark_place(marks))
    }
}

fn quote_place(marks: &[Mark]) -> Option<usize>
    ensures { result ≡ position (is_byte 34) marks.now }
{
    marks.iter().position(|mark| is_byte(b'"', *mark))
}

fn white_mark_place(marks: &[Mark]) -> Option<usize>
    ensures { result ≡ position is_white_mark marks.now }
{
    marks.iter().position(|mark| is_white_mark(*mark))
}

// A value within quotes, which ends at this quote, if there is one.
fn quoted<'a>(key: Key, marks: &'a [Mark], quote: Option<usize>) -> Setting<'a>
    requires { quote ≡ position (is_byte 34) marks.now }
    ensures { plain_setting result ≡ quoted key marks.now quote }
{
    match quote {
        None => Setting::Broken,
        Some(n) => {
            let followed = &marks[n + 1..];
            if ends_word(followed) {
                Setting::One(key, &marks[..n], followed)
            } else {
                Setting::Broken
            }
        }
    }
}

// Any other value, which ends at this white space, if there is some.
fn unquoted<'a>(key: Key, marks: &'a [Mark], white: Option<usize>) -> Setting<'a>
    requires { white ≡ position is_white_mark marks.now }
    ensures { plain_setting result ≡ unquoted key marks.now white }
{
    match white {
        Some(n) => Setting::One(key, &marks[..n], &marks[n..]),
        None => Setting::One(key, marks, &[]),
    }
}

// Whether a word ends here.
fn ends_word(marks: &[Mark]) -> bool
    ensures { result ≡ ends_word marks.now }
{
    match marks {
        [] => true,
        [mark, ..] => is_white_mark(*mark),
    }
}
