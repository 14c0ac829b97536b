ghost use Rattle.std.specs.Prelude.{◌≡◌, Ok, Some, IsTrue, IfOk, IfSome, false};
ghost use Rattle.std.specs.Option.{is_none, option_map};
ghost use Rattle.service_load.specs.Answers.{Answers, result_map};
ghost use Rattle.service_load.specs.Checking.{entries_held, entries_of_type};
ghost use Rattle.service_load.specs.Files.{held_text, is_in_directory};
ghost use Rattle.service_load.specs.Kinds.{IfNamed, is_read_failed};

use crate::entry::{ConfigEntry, Entries};
use crate::file_rules::entries_in;
use crate::rule_file::RuleFile;
use crate::rule_type::RuleType;
use control_words::conf_lex::LexFault;
use pam_base::{NoMemory, Refuse, Sequence, Text};
use std::alloc::Global;
use std::marker::Model;

/// The maximum number of texts that are kept from one load to the next.
const MAX_TEXTS: usize = 64;
/// The maximum number of bytes of all of them.
const MAX_BYTES: usize = 65536;

/// A text of a file that a load has read, and what its rules say.
#[derive(Drop)]
struct KeptFile {
    /// If the file has the form of `pam.conf(5)`, the service asked for.
    service: Option<Text>,
    text: Text,
    /// None if it has no rule of the service.
    entries: Option<Entries>,
    ghost said: { entries_held (is_none service) (held_text service (Some text)) ≡ Ok entries },
}

/// The texts that loads have read and what their rules say, so that a text that is read again isn't
/// parsed again. It never stands in for a file: each opening reads the file. Contracts don't see
/// its content.
#[derive(Drop)]
pub struct KeptTexts {
    files: Sequence<KeptFile>,
}

impl Model for KeptTexts {
    ghost Value = { Unit {0} };

    ghost view = { λ k. tt };
}

impl KeptFile {
    // Whether it is of a file of this form, with this text.
    fn is_of(&self, file: &RuleFile, text: &[u8]) -> bool
        ensures { IsTrue result → (self.now.service ≡ file.now.service) × (self.now.text
            ≡ text.now) }
    {
        self.text.bytes() == text && is_same(&self.service, &file.service)
    }

    // A copy of its entries for a type.
    fn entries_for(&self, alloc: Global, rule_type: RuleType) -> Result<Option<Entries>, NoMemory>
        ensures { IfOk result (λ entries. entries ≡ option_map
            (entries_of_type rule_type) self.now.entries) }
    {
        match &self.entries {
            None => Ok(None),
            Some(entries) => Ok(Some(entries_of_type(alloc, rule_type, entries.items())?)),
        }
    }
}

impl KeptTexts {
    /// No text. It takes no memory before the first load.
    pub fn new(alloc: Global) -> KeptTexts {
        KeptTexts {
            files: Sequence::new(alloc),
        }
    }

    /// What is kept for the next load: all texts, or none if they are too many or too long.
    pub(crate) fn trimmed(self, alloc: Global) -> KeptTexts {
        if self.files.len() > MAX_TEXTS || self.is_too_long() {
            KeptTexts::new(alloc)
        } else {
            self
        }
    }

    fn is_too_long(&self) -> bool {
        let mut room = MAX_BYTES;
        for kept in self.files.items() {
            match room.checked_sub(kept.text.len()) {
                Some(left) => room = left,
                None => return true,
            }
        }
        false
    }

    /// What the rules of a file with this text say for a type, if none has a fault; None if the
    /// file is `pam.conf(5)` and has no rule of the service.
    pub(crate) fn entries_in(
        &mut self,
        alloc: Global,
        file: &RuleFile,
        rule_type: RuleType,
        text: Text,
    ) -> Result<Option<Entries>, Refuse<LexFault>>
        ensures answer { Answers result (result_map (option_map (entries_of_type rule_type))
            (entries_held (is_in_directory file.now) (held_text file.now.service (Some text)))) }
        ensures kinds { IfNamed result (λ fault. is_read_failed fault.kind ≡ false) }
    {
        if let Some(kept) = self.found(file, text.bytes()) {
            return Ok(kept.entries_for(alloc, rule_type)?);
        }
        let entries = entries_in(alloc, file, text.bytes())?;
        let kept = KeptFile {
            service: copy_of(alloc, &file.service)?,
            text,
            entries,
        };
        let served = kept.entries_for(alloc, rule_type)?;
        self.files.push(kept)?;
        Ok(served)
    }

    // What is kept of a file with this text.
    fn found(&self, file: &RuleFile, text: &[u8]) -> Option<&KeptFile>
        ensures { IfSome result (λ kept. (kept.now.service ≡ file.now.service) × (kept.now.text
            ≡ text.now)) }
    {
        for kept in self.files.items() {
            if kept.is_of(file, text) {
                return Some(kept);
            }
        }
        None
    }
}

fn is_same(one: &Option<Text>, other: &Option<Text>) -> bool
    ensures { IsTrue result → one.now ≡ other.now }
{
    match (one, other) {
        (None, None) => true,
        (Some(one), Some(other)) => one.bytes() == other.bytes(),
        _ => false,
    }
}

fn copy_of(alloc: Global, text: &Option<Text>) -> Result<Option<Text>, NoMemory>
    ensures { IfOk result (λ copy. copy ≡ text.now) }
{
    match text {
        None => Ok(None),
        Some(text) => Ok(Some(Text::from_bytes(alloc, text.bytes())?)),
    }
}

// A copy of the entries for a type.
fn entries_of_type(
    alloc: Global,
    rule_type: RuleType,
    entries: &[ConfigEntry],
) -> Result<Entries, NoMemory>
    ensures { IfOk result (λ copy. copy ≡ entries_of_type rule_type entries.now) }
{
    let count = entries
        .iter()
        .filter(|entry| entry.serves(rule_type))
        .count();
    let mut copy = Entries::from_vec(Vec::with_capacity(alloc, count)?);
    for entry in entries {
        if entry.serves(rule_type) {
            copy.push(entry.copied(alloc)?)?;
        }
    }
    Ok(copy)
}
