ghost use Rattle.std.specs.Prelude.{◌≡◌, false, option_copied};
ghost use Rattle.service_load.specs.Answers.{Answers, AddsTo};
ghost use Rattle.service_load.specs.Files.{own_rule, held_text, is_in_directory};
ghost use Rattle.service_load.specs.Kinds.{IfNamed, is_read_failed};
ghost use Rattle.service_load.specs.Checking.{checked_entries, entries_held, GivesFields};

use crate::entry::{ConfigEntry, Entries};
use crate::rule_file::RuleFile;
use crate::type_field::is_word;
use control_words::conf_lex::{LexFault, RawRule, Token, rules};
use pam_base::Refuse;
use std::alloc::Global;

/// What the rules of a file with this text say, all of which are checked; None if the file is
/// `pam.conf(5)` and has no rule of the service.
pub(crate) fn entries_in(
    alloc: Global,
    file: &RuleFile,
    text: &[u8],
) -> Result<Option<Entries>, Refuse<LexFault>>
    ensures answer { Answers result (entries_held (is_in_directory file.now)
        (held_text file.now.service (Some text.now))) }
    ensures kinds { IfNamed result (λ fault. is_read_failed fault.kind ≡ false) }
{
    let rules = rules(alloc, text)?;
    let mut entries = Entries::new(alloc);
    for rule in rules.items() {
        add_rule(alloc, file, rule, &mut entries)?;
    }
    if !file.is_in_directory() && entries.is_empty() {
        return Ok(None);
    }
    Ok(Some(entries))
}

// Adds what a rule says, if it is one of those asked for.
fn add_rule(
    alloc: Global,
    file: &RuleFile,
    rule: &RawRule,
    entries: &mut Entries,
) -> Result<(), Refuse<LexFault>>
    ensures added { AddsTo result entries.old entries.new
        (checked_entries (is_in_directory file.now) (own_rule file.now.service rule.now)) }
    ensures kinds { IfNamed result (λ fault. is_read_failed fault.kind ≡ false) }
{
    let Some(fields) = fields_of(file, rule) else {
        return Ok(());
    };
    match ConfigEntry::of(alloc, rule.line, file.is_in_directory(), fields) {
        Ok(entry) => {
            entries.push(entry)?;
            Ok(())
        }
        Err(Refuse::NoMemory) => Err(Refuse::NoMemory),
        Err(Refuse::Named(kind)) => Err(Refuse::Named(LexFault {
            line: rule.line,
            kind,
        })),
    }
}

/// The fields of a rule without its service; None if it is of another service than the one asked
/// for (`pam.conf(5)`).
pub fn fields_of<'a>(file: &RuleFile, rule: &'a RawRule) -> Option<&'a [Token]>
    ensures { GivesFields (option_copied result) rule.now.line
        (own_rule file.now.service rule.now) }
{
    let tokens = rule.tokens.items();
    match &file.service {
        None => Some(tokens),
        Some(service) => match tokens {
            [first, fields @ ..] if is_word(service.bytes(), first) => Some(fields),
            _ => None,
        },
    }
}
