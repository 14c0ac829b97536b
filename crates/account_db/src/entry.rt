ghost use Rattle.std.specs.Prelude.{◌≡◌, ◌≤◌, ℕ, List, Option, Some, IfOk, is_some, length};
ghost use Rattle.account_db.specs.Entries.{Checks, entries_of, entry_if_named, entry_named, first_named, is_faulty, is_line_of, is_passed_over, kept};
ghost use Rattle.account_db.specs.Parts.{field};

use crate::fault::DbFault;
use crate::parts::name_in;
use pam_base::{Lines, NoMemory, Sequence, Text};
use std::alloc::Global;
use std::marker::{Model, PhantomData};

/// An entry of an account file, on a line of its own.
pub trait AccountEntry: Drop {
    /// The entry of a line that has the form of one.
    ghost form: { List ℕ → Option Self };

    /// The name by which an entry is looked up.
    ghost name: { Self → List ℕ };

    /// Whether a line has the form.
    fn has_form(line: &[u8]) -> bool
        ensures { result ≡ is_some (form line.now) };

    /// The entry of a line; None if it doesn't have the form.
    fn read(alloc: Global, line: &[u8]) -> Result<Option<Self>, NoMemory>
        ensures { IfOk result (λ entry. entry ≡ form line.now) };

    // The name is the first field of the line.
    ghost named: { (line : List ℕ) (entry : Self) → form line ≡ Some entry →
        name entry ≡ field 0 line };
}

/// The entries of the file, in order. They are stored as its text, and an entry is read when it is looked up.
#[derive(Drop)]
pub struct EntryFile<E: AccountEntry> {
    text: Text,
    form: PhantomData<E>,
}

impl<E: AccountEntry> Model for EntryFile<E> {
    ghost use Rattle.std.specs.Prelude.{List};
    ghost use Rattle.account_db.specs.Entries.{kept};

    ghost Value = { List E };

    ghost view = { λ f. kept E.AccountEntry.form f.text };
}

impl<E: AccountEntry> EntryFile<E> {
    /// The text of the file.
    pub(crate) fn text(&self) -> &[u8]
        ensures { kept E.form result.now ≡ self.now }
    {
        self.text.bytes()
    }
}

/// The entries of a file with this text, or the first line that doesn't have the form of one. The text has at most
/// 1,048,576 bytes. Allocates nothing.
pub(crate) fn file_of<E: AccountEntry>(text: Text) -> Result<EntryFile<E>, DbFault>
    requires { length text ≤ 1048576 }
    ensures { result ≡ entries_of E.form text }
{
    match check_lines::<E>(text.bytes()) {
        Ok(()) => Ok(EntryFile {
            text,
            form: PhantomData,
        }),
        Err(fault) => Err(fault),
    }
}

/// A user's entry: the first with that name.
pub fn entry_of<E: AccountEntry>(
    alloc: Global,
    user: &[u8],
    entries: &EntryFile<E>,
) -> Result<Option<E>, NoMemory>
    ensures { IfOk result (λ entry. entry ≡ first_named E.name user.now entries.now) }
{
    entry_named(alloc, user, entries.text())
}

/// Whether each line of a text that isn't skipped has the form; else the first that doesn't.
pub(crate) fn check_lines<E: AccountEntry>(text: &[u8]) -> Result<(), DbFault>
    requires { length text.now ≤ 1048576 }
    ensures { Checks E.form result text.now }
{
    let mut lines = Lines::new(text);
    let mut number: u32 = 0;
    while let Some(line) = lines.next_line() {
        number += 1;
        if is_faulty::<E>(line) {
            return Err(DbFault { line: number });
        }
    }
    Ok(())
}

fn is_faulty<E: AccountEntry>(line: &[u8]) -> bool
    ensures { result ≡ is_faulty E.form line.now }
{
    !is_passed_over(line) && !E::has_form(line)
}

/// The entries of a text, in order.
pub(crate) fn entries_in<E: AccountEntry>(
    alloc: Global,
    text: &[u8],
) -> Result<Sequence<E>, NoMemory>
    ensures { IfOk result (λ entries. entries ≡ kept E.form text.now) }
{
    let mut entries = Sequence::new(alloc);
    let mut lines = Lines::new(text);
    while let Some(line) = lines.next_line() {
        if !is_passed_over(line) {
            if let Some(entry) = E::read(alloc, line)? {
                entries.push(entry)?;
            }
        }
    }
    Ok(entries)
}

/// The first entry of a text with this name. Lines with another name aren't read any further.
pub(crate) fn entry_named<E: AccountEntry>(
    alloc: Global,
    name: &[u8],
    text: &[u8],
) -> Result<Option<E>, NoMemory>
    ensures { IfOk result (λ entry. entry ≡ entry_named E.form E.name name.now text.now) }
{
    let mut lines = Lines::new(text);
    while let Some(line) = lines.next_line() {
        let entry = entry_if_named::<E>(alloc, name, line)?;
        if entry.is_some() {
            return Ok(entry);
        }
    }
    Ok(None)
}

fn entry_if_named<E: AccountEntry>(
    alloc: Global,
    name: &[u8],
    line: &[u8],
) -> Result<Option<E>, NoMemory>
    ensures { IfOk result (λ entry. entry ≡ entry_if_named E.form name.now line.now) }
{
    if is_line_of(name, line) {
        E::read(alloc, line)
    } else {
        Ok(None)
    }
}

/// Whether a line isn't skipped, and its first field is this name.
pub(crate) fn is_line_of(name: &[u8], line: &[u8]) -> bool
    ensures { result ≡ is_line_of name.now line.now }
{
    !is_passed_over(line) && name_in(line) == name
}

/// Whether a line is skipped.
pub(crate) fn is_passed_over(line: &[u8]) -> bool
    ensures { result ≡ is_passed_over line.now }
{
    match line {
        [] => true,
        [first, ..] => *first == b'#' || *first == b'+' || *first == b'-',
    }
}
