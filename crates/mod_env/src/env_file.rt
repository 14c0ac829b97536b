ghost use Rattle.std.specs.Prelude.{◌≡◌, ◌==◌, ℕ, IfOk, position};
ghost use Rattle.std.specs.List.{list_all};
ghost use Rattle.pam_base.specs.Bytes.{has_byte};
ghost use Rattle.env_list.specs.Environment.{name_in, value_in};
ghost use Rattle.mod_env.specs.EnvFile.{assignment_at, assignment_in, assignments_of, is_name, is_name_byte, unquoted, without_export, without_last, without_quotes};

use crate::expand::assignment;
use crate::marks::after_white;
use pam_base::{Lines, NoMemory, Text, Texts, first_place};
use std::alloc::Global;

/// What the lines of a file of `environment(5)` set, in order, each an argument of `pam_putenv(3)`.
/// Lines that aren't of the form `NAME=VALUE` are skipped.
#[tactic(auto, unfolding(crate::specs::EnvFile::assignments_of))]
pub fn assignments_of(alloc: Global, text: &[u8]) -> Result<Texts, NoMemory>
    ensures { IfOk result (λ texts. texts ≡ assignments_of text.now) }
{
    let mut texts = Texts::new(alloc);
    let mut lines = Lines::new(text);
    while let Some(line) = lines.next_line() {
        if let Some(text) = assignment_in(alloc, line)? {
            texts.push(text)?;
        }
    }
    Ok(texts)
}

fn assignment_in(alloc: Global, line: &[u8]) -> Result<Option<Text>, NoMemory>
    ensures { IfOk result (λ text. text ≡ assignment_in line.now) }
{
    assignment_at(alloc, without_export(after_white(line)))
}

fn without_export(text: &[u8]) -> &[u8]
    ensures { result.now ≡ without_export text.now }
{
    if text.starts_with(b"export ") {
        &text[7..]
    } else {
        text
    }
}

fn assignment_at(alloc: Global, text: &[u8]) -> Result<Option<Text>, NoMemory>
    ensures { IfOk result (λ text'. text' ≡ assignment_at text.now) }
{
    let (name, value) = halves(text);
    if !has_equals(text) || !is_name(name) {
        return Ok(None);
    }
    let text = assignment(alloc, name, unquoted(value))?;
    Ok(Some(text))
}

fn has_equals(text: &[u8]) -> bool
    ensures { result ≡ has_byte 61 text.now }
{
    first_place(b'=', text).is_some()
}

// What comes before the first `=`, and what follows it.
fn halves(text: &[u8]) -> (&[u8], &[u8])
    ensures name { result.0.now ≡ name_in text.now }
    ensures value { result.1.now ≡ value_in text.now }
{
    match equals_place(text) {
        Some(n) => (&text[..n], &text[n + 1..]),
        None => (text, b""),
    }
}

fn equals_place(text: &[u8]) -> Option<usize>
    ensures { result ≡ position (λ (b : ℕ). b == 61) text.now }
{
    text.iter().position(|byte| *byte == b'=')
}

// Letters, digits and underscores, one or more.
fn is_name(text: &[u8]) -> bool
    ensures { result ≡ is_name text.now }
{
    !text.is_empty() && are_name_bytes(text)
}

fn are_name_bytes(text: &[u8]) -> bool
    ensures { result ≡ list_all is_name_byte text.now }
{
    text.iter().all(|byte| is_name_byte(*byte))
}

fn is_name_byte(byte: u8) -> bool
    ensures { result ≡ is_name_byte byte }
{
    byte.is_ascii_alphanumeric() || byte == b'_'
}

// A value without the pair of quotes around it, if there is one.
fn unquoted(text: &[u8]) -> &[u8]
    ensures { result.now ≡ unquoted text.now }
{
    if text.starts_with(b"\"") {
        without_quotes(b'"', text)
    } else {
        without_quotes(b'\'', text)
    }
}

fn without_quotes(quote: u8, text: &[u8]) -> &[u8]
    ensures { result.now ≡ without_quotes quote text.now }
{
    if text.starts_with(&[quote]) {
        without_last(quote, &text[1..], text)
    } else {
        text
    }
}

fn without_last<'a>(quote: u8, inner: &'a [u8], whole: &'a [u8]) -> &'a [u8]
    ensures { result.now ≡ without_last quote inner.now whole.now }
{
    if inner.ends_with(&[quote]) {
        &inner[..inner.len() - 1]
    } else {
        whole
    }
}
