ghost use Rattle.std.specs.Prelude.{◌≡◌, IfOk, option_map};
ghost use Rattle.pam_base.specs.Words.{words_of};
ghost use Rattle.script_lang.specs.Value.{carried, carried_all, meaning_of, meaning_in, meaning_at, meanings_at, switch_of_word, number_of, wide_of, item_of, bytes_of, text_of, is_on};

use crate::cut::word_at;
use crate::number::{moment_in, number_in, random_in};
use crate::place::{Form, Position};
use pam_base::{ItemName, NoMemory, ScriptKind, Text, is_service_name, item_named};
use std::alloc::Global;

/// The value of the word at a place.
#[derive(Clone, Copy)]
pub(crate) enum Value<'a> {
    /// There is no word.
    Absent,
    Number(u32),
    /// A time or a random word.
    Wide(u64),
    Item(ItemName),
    Bytes(&'a [u8]),
    Switch(bool),
}

/// The values of a command's three places.
#[derive(Clone, Copy)]
pub(crate) struct Values<'a> {
    pub(crate) first: Value<'a>,
    pub(crate) second: Value<'a>,
    pub(crate) third: Value<'a>,
}

/// The values of the words at some places of a line, or the fault of the leftmost word that isn't of its form.
pub(crate) fn values_at(places: [Position; 3], line: &[u8]) -> Result<Values<'_>, ScriptKind>
    ensures { carried_all result ≡ meanings_at places (words_of line.now) }
{
    let first = value_at(places[0], 1, line);
    let second = value_at(places[1], 2, line);
    let third = value_at(places[2], 3, line);
    // In this order, so that the leftmost fault is returned.
    Ok(Values {
        first: first?,
        second: second?,
        third: third?,
    })
}

fn value_at(place: Position, before: usize, line: &[u8]) -> Result<Value<'_>, ScriptKind>
    ensures { carried result ≡ meaning_at place before (words_of line.now) }
{
    match (place.form(), word_at(place, before, line)) {
        (Some(form), Some(word)) => value_in(form, word).ok_or(form.fault()),
        _ => Ok(Value::Absent),
    }
}

// The value of a word of this form; None if and only if the word isn't of the form.
fn value_in(form: Form, word: &[u8]) -> Option<Value<'_>>
    ensures { option_map meaning_of result ≡ meaning_in form word.now }
{
    match form {
        Form::Number => Some(Value::Number(number_in(word)?)),
        Form::Moment => Some(Value::Wide(moment_in(word)?)),
        Form::Random => Some(Value::Wide(random_in(word)?)),
        Form::Item => Some(Value::Item(item_named(word)?)),
        Form::Switch => Some(Value::Switch(switch_in(word)?)),
        Form::Service => is_service_name(word).then_some(Value::Bytes(word)),
        Form::Name => (!word.is_empty()).then_some(Value::Bytes(word)),
        Form::Text => Some(Value::Bytes(word)),
    }
}

fn switch_in(word: &[u8]) -> Option<bool>
    ensures { result ≡ switch_of_word word.now }
{
    if word == b"on".as_slice() {
        Some(true)
    } else if word == b"off".as_slice() {
        Some(false)
    } else {
        None
    }
}

impl Value<'_> {
    /// The number; 0 for any other value.
    pub(crate) fn number(self) -> u32
        ensures { result ≡ number_of (meaning_of self.entry) }
    {
        match self {
            Value::Number(number) => number,
            _ => 0,
        }
    }

    /// The time or random word; 0 for any other value.
    pub(crate) fn wide(self) -> u64
        ensures { result ≡ wide_of (meaning_of self.entry) }
    {
        match self {
            Value::Wide(number) => number,
            _ => 0,
        }
    }

    /// The item; SERVICE for any other value.
    pub(crate) fn item(self) -> ItemName
        ensures { result ≡ item_of (meaning_of self.entry) }
    {
        match self {
            Value::Item(item) => item,
            _ => ItemName::Service,
        }
    }

    /// Whether it is `on`.
    pub(crate) fn is_on(self) -> bool
        ensures { result ≡ is_on (meaning_of self.entry) }
    {
        matches!(self, Value::Switch(true))
    }

    /// A copy of the bytes; an empty text for any other value.
    pub(crate) fn text(self, alloc: Global) -> Result<Text, NoMemory>
        ensures { IfOk result (λ text. text ≡ bytes_of (meaning_of self.entry)) }
    {
        match self {
            Value::Bytes(bytes) => Text::from_bytes(alloc, bytes),
            _ => Ok(Text::new(alloc)),
        }
    }

    /// A copy of the bytes; None for any other value.
    pub(crate) fn optional_text(self, alloc: Global) -> Result<Option<Text>, NoMemory>
        ensures { IfOk result (λ text. text ≡ text_of (meaning_of self.entry)) }
    {
        match self {
            Value::Bytes(bytes) => Ok(Some(Text::from_bytes(alloc, bytes)?)),
            _ => Ok(None),
        }
    }
}
