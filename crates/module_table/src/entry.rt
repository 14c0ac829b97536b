ghost use Rattle.std.specs.Prelude.{◌≡◌, ◌&&◌, ◌||◌, option_map, IfOk, codes};
ghost use Rattle.std.specs.List.{find};
ghost use Rattle.std.specs.Str.{bytes_eq};
ghost use Rattle.pam_base.specs.Parts.{parts_of};
ghost use Rattle.module_table.specs.Entries.{codes_of, entry_for, entry_in, entry_of_words, is_for};
ghost use Rattle.module_table.specs.Entries.{is_type_word, judged_entry, line_codes};

use crate::codes::{are_codes, codes_in, yes_codes};
use crate::judging::Judging;
use pam_base::{NoMemory, Parts, Text, Texts};
use stack_ways::LineCodes;
use std::alloc::Global;

/// What is known of a module, in the stacks of one type or of all.
#[derive(Debug, Drop)]
pub struct Entry {
    /// The module's name, without directory and `.so`.
    pub name: Text,
    /// The word of a type, or `*` for all.
    pub rule_type: Text,
    pub judging: Judging,
    /// The codes that it may return, as they are written.
    pub codes: Text,
    /// Why this is taken to hold: a manual page, or `proved`.
    pub basis: Text,
}

impl Entry {
    // Whether the entry is for a module in the stacks of a type.
    fn is_for(&self, name: &[u8], rule_type: &[u8]) -> bool
        ensures { result ≡ is_for name.now rule_type.now self.now }
    {
        self.name.bytes() == name
            && (self.rule_type.bytes() == b"*".as_slice() || self.rule_type.bytes() == rule_type)
    }
}

/// The first entry for a module in the stacks of a type.
pub fn entry_for<'a>(table: &'a [Entry], name: &[u8], rule_type: &[u8]) -> Option<&'a Entry>
    ensures { option_map (λ e. e.now) result ≡ entry_for table.now name.now rule_type.now }
{
    match table {
        [] => None,
        [entry, rest @ ..] => {
            if entry.is_for(name, rule_type) {
                Some(entry)
            } else {
                entry_for(rest, name, rule_type)
            }
        }
    }
}

/// What is assumed of a line whose module has this entry. A module without one may return anything,
/// and counts as one that asks.
pub fn codes_of(found: Option<&Entry>) -> LineCodes
    ensures { result ≡ codes_of (option_map (λ e. e.now) found.entry) }
{
    match found {
        Some(entry) => line_codes(entry.judging, entry.codes.bytes()),
        None => line_codes(Judging::Asks, b"any"),
    }
}

fn line_codes(judging: Judging, codes: &[u8]) -> LineCodes
    ensures { result ≡ line_codes judging codes.now }
{
    LineCodes {
        may: codes_in(codes),
        counts: yes_codes(judging),
    }
}

/// The entry that a line of the table is; None if it isn't one.
pub(crate) fn entry_in(alloc: Global, line: &[u8]) -> Result<Option<Entry>, NoMemory>
    ensures { IfOk result (λ entry. entry ≡ entry_in line.now) }
{
    let mut parts = Parts::new(b' ', line);
    let words = words_in(alloc, &mut parts)?;
    entry_of_words(alloc, words.items())
}

fn words_in(alloc: Global, parts: &mut Parts) -> Result<Texts, NoMemory>
    ensures { IfOk result (λ words. words ≡ parts.old) }
{
    let mut words = Texts::new(alloc);
    while let Some(part) = parts.next_part() {
        words.push(Text::from_bytes(alloc, part)?)?;
    }
    Ok(words)
}

fn entry_of_words(alloc: Global, words: &[Text]) -> Result<Option<Entry>, NoMemory>
    ensures { IfOk result (λ entry. entry ≡ entry_of_words words.now) }
{
    let [name, rule_type, judging, codes, basis] = words else {
        return Ok(None);
    };
    if !is_type_word(rule_type.bytes()) || !are_codes(codes.bytes()) {
        return Ok(None);
    }
    let judging = Judging::named(judging.bytes());
    judged_entry(alloc, name, rule_type, judging, codes, basis)
}

fn judged_entry(
    alloc: Global,
    name: &Text,
    rule_type: &Text,
    judging: Option<Judging>,
    codes: &Text,
    basis: &Text,
) -> Result<Option<Entry>, NoMemory>
    ensures { IfOk result (λ entry. entry
        ≡ judged_entry name.now rule_type.now judging codes.now basis.now) }
{
    match judging {
        Some(judging) => Ok(Some(Entry {
            name: Text::from_bytes(alloc, name.bytes())?,
            rule_type: Text::from_bytes(alloc, rule_type.bytes())?,
            judging,
            codes: Text::from_bytes(alloc, codes.bytes())?,
            basis: Text::from_bytes(alloc, basis.bytes())?,
        })),
        None => Ok(None),
    }
}

fn is_type_word(word: &[u8]) -> bool
    ensures { result ≡ is_type_word word.now }
{
    word == b"*".as_slice()
        || word == b"auth".as_slice()
        || word == b"account".as_slice()
        || word == b"password".as_slice()
        || word == b"session".as_slice()
}
