ghost use Rattle.std.specs.Prelude.{◌≡◌};
ghost use Rattle.module_table.specs.Entries.{entries_in, is_note, table_of};
ghost use Rattle.module_table.specs.Tables.{Reads};

use crate::entry::{Entry, entry_in};
use pam_base::{Lines, NoMemory, Sequence};
use std::alloc::Global;

/// What is known of modules; of several entries for the same one, the first counts.
pub type Table = Sequence<Entry>;

/// Why a table isn't read.
#[derive(Clone, Copy, Debug)]
pub enum TableFault<'a> {
    NoMemory,
    /// The first line that isn't an entry.
    Malformed(&'a [u8]),
}

impl<'a> From<NoMemory> for TableFault<'a> {
    ghost use Rattle.std.specs.Prelude.{◌≡◌};
    ghost use Rattle.module_table.specs.declared.table.TableFault.{TableFault};
    ghost use Rattle.module_table.specs.declared.table.TableFault.TheVariants as faults;

    ghost from_gives = { λ _ e. e ≡ faults.NoMemory };

    fn from(_: NoMemory) -> Self {
        TableFault::NoMemory
    }
}

/// The entries of a text. A line is a module's name, the word of a type or `*`, what its SUCCESS
/// says, the codes that it may return, and why this is taken to hold, with one space between them.
/// Empty lines and those that begin with # say nothing.
pub fn read_table(alloc: Global, text: &[u8]) -> Result<Table, TableFault<'_>>
    ensures { Reads result (table_of text.now) }
{
    let mut lines = Lines::new(text);
    read_lines(alloc, &mut lines)
}

fn read_lines<'a>(alloc: Global, lines: &mut Lines<'a>) -> Result<Table, TableFault<'a>>
    ensures { Reads result (entries_in lines.old) }
{
    let mut table = Table::new(alloc);
    while let Some(line) = lines.next_line() {
        if !is_note(line) {
            match entry_in(alloc, line)? {
                Some(entry) => table.push(entry)?,
                None => return Err(TableFault::Malformed(line)),
            }
        }
    }
    Ok(table)
}

fn is_note(line: &[u8]) -> bool
    ensures { result ≡ is_note line.now }
{
    match line {
        [] => true,
        [first, ..] => *first == b'#',
    }
}
