ghost use Rattle.std.specs.Prelude.{◌≡◌, ◌||◌, ◌∷◌, ◌++◌, [], IfOk, OnOk, codes, unwrap_or};
ghost use Rattle.std.specs.Str.{bytes_eq};
ghost use Rattle.std.specs.List.{list_any};
ghost use Rattle.std.specs.Option.{option_copied};
ghost use Rattle.mod_env.specs.Expand.{asks_account, expanded, expansion_of, fitting, home_of, item_value, names_account, piece_text, plain_sources, put_default, put_text, shell_of, value_names_account, value_text};

use crate::conf::EnvLine;
use crate::value::{Piece, Pieces};
use account_db::Passwd;
use env_list::EnvList;
use item_store::Items;
use module_acts::pam_room::get_item;
use pam_base::{ItemName, NoMemory, Text};
use std::alloc::Global;

/// The maximum number of bytes of a value.
const VALUE_LIMIT: usize = 1024;

/// What becomes of a variable.
#[derive(Debug, Drop)]
pub enum Expansion {
    /// A value has more than 1,024 bytes.
    TooLong,
    /// The argument of `pam_putenv(3)`.
    Puts(Text),
}

/// What a value may name: items, variables, and the user's entry in `passwd` if it exists.
#[derive(Clone, Copy)]
pub struct Sources<'a> {
    pub items: &'a Items,
    pub env: &'a EnvList,
    pub entry: Option<&'a Passwd>,
}

/// What becomes of a variable.
pub fn expansion_of(alloc: Global, entry: &EnvLine, from: Sources) -> Result<Expansion, NoMemory>
    ensures { IfOk result (λ made. made ≡ expansion_of entry.now (plain_sources from.entry)) }
{
    let default = match value_text(alloc, from, &entry.values.default)? {
        Some(default) => default,
        None => return Ok(Expansion::TooLong),
    };
    let overriding = match value_text(alloc, from, &entry.values.overriding)? {
        Some(overriding) => overriding,
        None => return Ok(Expansion::TooLong),
    };
    let text = put_text(alloc, entry.name.bytes(), default, overriding)?;
    Ok(Expansion::Puts(text))
}

// The text of a value that is given; None if it is too long.
fn value_text(
    alloc: Global,
    from: Sources,
    value: &Option<Pieces>,
) -> Result<Option<Option<Text>>, NoMemory>
    ensures { IfOk result (λ text. text ≡ value_text (plain_sources from.entry) value.now) }
{
    match value {
        Some(value) => match fitting(alloc, from, value)? {
            Some(text) => Ok(Some(Some(text))),
            None => Ok(None),
        },
        None => Ok(Some(None)),
    }
}

// What a value expands to, unless it is too long.
fn fitting(alloc: Global, from: Sources, value: &Pieces) -> Result<Option<Text>, NoMemory>
    ensures { IfOk result (λ text. text ≡ fitting (expanded (plain_sources from.entry) value.now)) }
{
    let mut text = Vec::new(alloc);
    let mut rest = value.items();
    while let [piece, after @ ..] = rest {
        push_piece(from, piece, &mut text)?;
        if text.len() > VALUE_LIMIT {
            return Ok(None);
        }
        rest = after;
    }
    Ok(Some(Text::from_vec(text)))
}

fn push_piece(from: Sources, piece: &Piece, text: &mut Vec<u8>) -> Result<(), NoMemory>
    ensures { OnOk result (text.new.items ≡ text.old.items
        ++ piece_text (plain_sources from.entry) piece.now) }
{
    match piece {
        Piece::Byte(byte) => text.push(*byte)?,
        Piece::Variable(name) => text.extend_from_slice(text_or_empty(from.env.get(name.bytes())))?,
        Piece::Item(name) => text.extend_from_slice(item_value(name.bytes(), from))?,
    }
    Ok(())
}

fn text_or_empty<'a>(text: Option<&'a [u8]>) -> &'a [u8]
    ensures { result.now ≡ unwrap_or (option_copied text.entry) [] }
{
    match text {
        Some(text) => text,
        None => b"",
    }
}

fn item_value<'a>(name: &[u8], from: Sources<'a>) -> &'a [u8]
    ensures { result.now ≡ item_value name.now (plain_sources from.entry) }
{
    if name == b"PAM_USER".as_slice() {
        text_or_empty(get_item(from.items, ItemName::User))
    } else if name == b"PAM_TTY".as_slice() {
        text_or_empty(get_item(from.items, ItemName::Tty))
    } else if name == b"PAM_RHOST".as_slice() {
        text_or_empty(get_item(from.items, ItemName::Rhost))
    } else if name == b"PAM_RUSER".as_slice() {
        text_or_empty(get_item(from.items, ItemName::Ruser))
    } else if name == b"PAM_USER_PROMPT".as_slice() {
        text_or_empty(get_item(from.items, ItemName::UserPrompt))
    } else if name == b"HOME".as_slice() {
        home_of(from.entry)
    } else if name == b"SHELL".as_slice() {
        shell_of(from.entry)
    } else {
        b""
    }
}

fn home_of<'a>(entry: Option<&'a Passwd>) -> &'a [u8]
    ensures { result.now ≡ home_of (option_copied entry.entry) }
{
    match entry {
        Some(entry) => entry.home.bytes(),
        None => b"",
    }
}

fn shell_of<'a>(entry: Option<&'a Passwd>) -> &'a [u8]
    ensures { result.now ≡ shell_of (option_copied entry.entry) }
{
    match entry {
        Some(entry) => entry.shell.bytes(),
        None => b"",
    }
}

// The argument of pam_putenv(3) for a variable, by the texts of its values.
fn put_text(
    alloc: Global,
    name: &[u8],
    default: Option<Text>,
    overriding: Option<Text>,
) -> Result<Text, NoMemory>
    ensures { IfOk result (λ text. text ≡ put_text name.now default overriding) }
{
    match overriding {
        Some(overriding) => {
            if overriding.is_empty() {
                put_default(alloc, name, default)
            } else {
                assignment(alloc, name, overriding.bytes())
            }
        }
        None => put_default(alloc, name, default),
    }
}

fn put_default(alloc: Global, name: &[u8], default: Option<Text>) -> Result<Text, NoMemory>
    ensures { IfOk result (λ text. text ≡ put_default name.now default) }
{
    match default {
        Some(default) => assignment(alloc, name, default.bytes()),
        None => Text::from_bytes(alloc, name),
    }
}

/// `NAME=VALUE`.
pub(crate) fn assignment(alloc: Global, name: &[u8], value: &[u8]) -> Result<Text, NoMemory>
    ensures { IfOk result (λ text. text ≡ name.now ++ 61 ∷ value.now) }
{
    let mut text = Vec::from_slice(alloc, name)?;
    text.push(b'=')?;
    text.extend_from_slice(value)?;
    Ok(Text::from_vec(text))
}

/// Whether a value of the variable needs the user's account, used or not.
pub fn asks_account(entry: &EnvLine) -> bool
    ensures { result ≡ asks_account entry.now }
{
    value_names_account(&entry.values.default) || value_names_account(&entry.values.overriding)
}

fn value_names_account(value: &Option<Pieces>) -> bool
    ensures { result ≡ value_names_account value.now }
{
    match value {
        Some(value) => some_names_account(value),
        None => false,
    }
}

fn some_names_account(value: &Pieces) -> bool
    ensures { result ≡ list_any names_account value.now }
{
    let mut rest = value.items();
    while let [piece, after @ ..] = rest {
        if names_account(piece) {
            return true;
        }
        rest = after;
    }
    false
}

fn names_account(piece: &Piece) -> bool
    ensures { result ≡ names_account piece.now }
{
    match piece {
        Piece::Item(name) => is_account_name(name.bytes()),
        Piece::Byte(_) => false,
        Piece::Variable(_) => false,
    }
}

fn is_account_name(name: &[u8]) -> bool
    ensures { result ≡ (bytes_eq name.now (codes "HOME") || bytes_eq name.now (codes "SHELL")) }
{
    name == b"HOME".as_slice() || name == b"SHELL".as_slice()
}
