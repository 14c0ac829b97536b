ghost use Rattle.std.specs.Prelude.{◌≡◌, ◌≤◌, ◌||◌, IsTrue, IfOk};
ghost use Rattle.explain_origins.specs.Reading.{Adds, CountsReads, ReadsRules, Takes, ends_failing, placed_at, step_of_rules};
ghost use Rattle.service_load.specs.Files.{held, is_in_directory, own_rule, rules_held};
ghost use Rattle.service_load.specs.Kinds.{IfNamed};
ghost use Rattle.service_load.specs.Loading.{OnlyCalls, texts_of};

use crate::step::{Step, step_of};
use control_words::conf_lex::{RawRule, RawRules, rules};
use explain_lines::{Origin, Origins};
use pam_base::{Failed, NoMemory, Refuse, Text};
use pam_outside::{Vault, VaultFault, path_of, read_file};
use service_load::{MAX_FILE, MAX_LEVEL, RuleFile, RuleType, fields_of};
use std::alloc::Global;

/// A file that a rule includes.
#[derive(Drop)]
pub struct Inclusion {
    pub file: RuleFile,
    /// Whether its nodes are a substack.
    pub as_substack: bool,
}

impl Inclusion {
    // Whether something was added, once the file was: it adds something, or is a substack.
    fn is_any(self, any: bool, found: bool) -> bool
        ensures { result ≡ (any || (self.as_substack || found)) }
    {
        any || self.as_substack || found
    }
}

/// Adds where the lines of a file for a type are written, at a level of at most 17. Returns whether
/// the file adds a line or a substack.
pub fn add_file(
    alloc: Global,
    vault: &mut dyn Vault,
    root: &[u8],
    rule_type: RuleType,
    level: u32,
    file: &RuleFile,
    origins: &mut Origins,
) -> Result<bool, Refuse<Failed>>
    requires { level ≤ 17 }
    ensures tells { vault_tells vault.new ≡ vault_tells vault.old }
    ensures told { IsTrue (vault_tells vault.old) → IfOk result (λ any.
        Adds any origins.old origins.new (placed_at (texts_of root.now
        (vault_holds vault.old)) level rule_type file.now)) }
    ensures stays { IsTrue (vault_tells vault.old) →
        OnlyCalls (vault_holds vault.old) (vault_holds vault.new) }
    ensures planned { IsTrue (vault_tells vault.old) →
        IfNamed result (λ failed. IsTrue (ends_failing (vault_holds vault.new))) }
    ensures faults { CountsReads result (vault_faults vault.old) (vault_faults vault.new) }
{
    if level > MAX_LEVEL {
        return Ok(false);
    }
    let Some(rules) = read_rules(alloc, vault, root, file)? else {
        return Ok(false);
    };
    let mut any = false;
    for rule in rules.items() {
        let step = step_in(alloc, rule_type, file, rule)?;
        let Some(inclusion) = take_step(alloc, file, step, origins, &mut any)? else {
            continue;
        };
        let inner = &inclusion.file;
        let found = add_file(alloc, vault, root, rule_type, level + 1, inner, origins)?;
        any = inclusion.is_any(any, found);
    }
    Ok(any)
}

// Takes what a rule of a file adds: adds the place of its line, or returns the file that it includes.
fn take_step(
    alloc: Global,
    file: &RuleFile,
    step: Step,
    origins: &mut Origins,
    any: &mut bool,
) -> Result<Option<Inclusion>, NoMemory>
    ensures { Takes result step file.now.name origins.old origins.new any.old any.new }
{
    match step {
        Step::Nothing => Ok(None),
        Step::Line(line) => {
            origins.push(Origin {
                file: Text::from_bytes(alloc, file.name.bytes())?,
                line,
            })?;
            *any = true;
            Ok(None)
        }
        Step::File { name, as_substack } => Ok(Some(Inclusion {
            file: RuleFile::plain(name),
            as_substack,
        })),
    }
}

// The rules of a file; None if it doesn't exist or its text has a fault.
fn read_rules(
    alloc: Global,
    vault: &mut dyn Vault,
    root: &[u8],
    file: &RuleFile,
) -> Result<Option<RawRules>, Refuse<Failed>>
    ensures tells { vault_tells vault.new ≡ vault_tells vault.old }
    ensures told { IsTrue (vault_tells vault.old) → ReadsRules result file.now.service
        (rules_held (held (texts_of root.now (vault_holds vault.old)) file.now)) }
    ensures stays { IsTrue (vault_tells vault.old) →
        OnlyCalls (vault_holds vault.old) (vault_holds vault.new) }
    ensures planned { IsTrue (vault_tells vault.old) →
        IfNamed result (λ failed. IsTrue (ends_failing (vault_holds vault.new))) }
    ensures faults { CountsReads result (vault_faults vault.old) (vault_faults vault.new) }
{
    let name = file.name.bytes();
    let path = path_of(alloc, root, name)?;
    match read_file(vault, alloc, path.bytes(), MAX_FILE) {
        Ok(text) => match rules(alloc, text.bytes()) {
            Ok(rules) => Ok(Some(rules)),
            Err(Refuse::NoMemory) => Err(Refuse::NoMemory),
            Err(Refuse::Named(_)) => Ok(None),
        },
        Err(VaultFault::NoMemory) => Err(Refuse::NoMemory),
        Err(VaultFault::Absent) => Ok(None),
        Err(VaultFault::TooLong) => Ok(None),
        Err(VaultFault::Failed) => Err(Refuse::Named(Failed)),
    }
}

// What a rule of a file adds to the stack of a type.
fn step_in(
    alloc: Global,
    rule_type: RuleType,
    file: &RuleFile,
    rule: &RawRule,
) -> Result<Step, NoMemory>
    ensures { IfOk result (λ step. step ≡ step_of_rules rule_type
        (is_in_directory file.now) (own_rule file.now.service rule.now)) }
{
    match fields_of(file, rule) {
        Some(fields) => step_of(alloc, rule_type, rule.line, file.is_in_directory(), fields),
        None => Ok(Step::Nothing),
    }
}
