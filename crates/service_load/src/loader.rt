ghost use Rattle.std.specs.Prelude.{◌≡◌, ◌+◌, ◌<◌, ◌≤◌, not, IsTrue, IfOk, OnOk, if◌then◌else◌};
ghost use Rattle.std.specs.Option.{option_map};
ghost use Rattle.pam_outside.specs.Counts.{fails_next};
ghost use Rattle.pam_outside.specs.Files.{counted};
ghost use Rattle.control_words.specs.Stack.{stack_of};
ghost use Rattle.service_load.specs.Answers.{Answers, IsRefusal, result_map};
ghost use Rattle.service_load.specs.FirstFault.{look, opening_fault};
ghost use Rattle.service_load.specs.Checking.{entries_held, entries_of_type};
ghost use Rattle.service_load.specs.Files.{held, is_absent, is_in_directory};
ghost use Rattle.service_load.specs.Load.{AreBounded, LoadsBy};
ghost use Rattle.service_load.specs.Order.{as_last, as_other, trees_items};
ghost use Rattle.service_load.specs.Tree.{tree_from};
ghost use Rattle.service_load.specs.Loading.{AddsLine, Brings, CountsFaults, Grows, IfCalled, IsBounded, Makes, OnlyCalls, Opens, TakesEntry, counts_of, items_at, load_state, nodes_at, opened_answer, opener_of, texts_of};

use crate::entry::{ConfigEntry, Entries, RuleContent};
use crate::inclusion::Inclusion;
use crate::kept::KeptTexts;
use crate::load_fault::{LoadFault, refused};
use crate::opener::{Opener, opener_of_other, refused_opening};
use crate::position::Position;
use crate::rule_file::{RuleFile, ServiceFiles};
use crate::rule_type::{ALL_TYPES, RuleType};
use crate::trees::Trees;
use control_words::{Node, Nodes, Rule};
use pam_base::{FaultKind, Refuse, Text};
use pam_outside::{Vault, VaultFault, path_of, read_file};
use std::alloc::Global;

/// The maximum length of a file in bytes.
pub const MAX_FILE: u32 = 65536;
/// The maximum level of a file: how many files include it.
pub const MAX_LEVEL: u32 = 16;
/// The maximum number of files that a load opens.
const MAX_OPENINGS: u32 = 256;
/// The maximum number of lines of a stack.
const MAX_LINES: u32 = 4096;

/// The state of a load.
#[derive(Drop)]
pub(crate) struct Loader {
    /// How many files were opened.
    pub(crate) openings: u32,
    /// How many lines the present stack has.
    pub(crate) lines: u32,
    /// What was read, by this load or earlier ones.
    pub(crate) kept: KeptTexts,
}

impl Loader {
    /// Reads a file, checks all its rules, and returns the entries for a type; None if the file
    /// doesn't exist.
    fn read(
        &mut self,
        alloc: Global,
        vault: &mut dyn Vault,
        root: &[u8],
        rule_type: RuleType,
        file: &RuleFile,
    ) -> Result<Option<Entries>, Refuse<LoadFault>>
        requires { self.old.openings < 256 }
        ensures counted { self.new ≡ record self.old { openings = self.old.openings + 1 } }
        ensures tells { vault_tells vault.new ≡ vault_tells vault.old }
        ensures told { IsTrue (vault_tells vault.old) → Answers result
            (opened_answer (fails_next (vault_holds vault.old).calls
            (vault_holds vault.old).fails) file.now.name
            (result_map (option_map (entries_of_type rule_type))
            (entries_held (is_in_directory file.now) (held (texts_of root.now
            (vault_holds vault.old)) file.now)))) }
        ensures calls { IsTrue (vault_tells vault.old) →
            IfCalled result (vault_holds vault.new ≡ counted (vault_holds vault.old)) }
        ensures stays { IsTrue (vault_tells vault.old) →
            OnlyCalls (vault_holds vault.old) (vault_holds vault.new) }
        ensures faults { CountsFaults result (vault_faults vault.old) (vault_faults vault.new) }
    {
        self.openings += 1;
        let name = file.name.bytes();
        let path = path_of(alloc, root, name)?;
        // Copied before the call, since a failed allocation must not hide a fault of the files.
        let unread = Text::from_bytes(alloc, name)?;
        match read_file(vault, alloc, path.bytes(), MAX_FILE) {
            Ok(text) => match self.kept.entries_in(alloc, file, rule_type, text) {
                Ok(entries) => Ok(entries),
                Err(Refuse::NoMemory) => Err(Refuse::NoMemory),
                Err(Refuse::Named(fault)) => Err(refused(alloc, name, fault.line, fault.kind)),
            },
            Err(VaultFault::NoMemory) => Err(Refuse::NoMemory),
            Err(VaultFault::Absent) => Ok(None),
            Err(VaultFault::TooLong) => Err(refused(alloc, name, 0, FaultKind::FileTooLong)),
            Err(VaultFault::Failed) => Err(Refuse::Named(LoadFault::unread(unread))),
        }
    }

    /// Opens a file, if its level and the number of openings allow it; None if it doesn't exist and
    /// doesn't have to.
    fn open(
        &mut self,
        alloc: Global,
        vault: &mut dyn Vault,
        at: Position,
        file: &RuleFile,
    ) -> Result<Option<Entries>, Refuse<LoadFault>>
        requires { at.level ≤ 17 }
        ensures lines { self.new.lines ≡ self.old.lines }
        ensures level { OnOk result (at.entry.level ≤ 16) }
        ensures tells { vault_tells vault.new ≡ vault_tells vault.old }
        ensures told { IsTrue (vault_tells vault.old) →
            Opens (texts_of at.entry.root.now (vault_holds vault.old)) result
            (vault_holds vault.old).fails (counts_of self.old (vault_holds vault.old))
            (counts_of self.new (vault_holds vault.new)) at.entry.level at.entry.rule_type
            (opener_of at.entry.opener) file.now }
        ensures stays { IsTrue (vault_tells vault.old) →
            OnlyCalls (vault_holds vault.old) (vault_holds vault.new) }
        ensures faults { CountsFaults result (vault_faults vault.old) (vault_faults vault.new) }
    {
        if at.level > MAX_LEVEL {
            return Err(refused_opening(alloc, at.opener, file, FaultKind::TooDeep));
        }
        if self.openings >= MAX_OPENINGS {
            return Err(refused_opening(alloc, at.opener, file, FaultKind::TooManyFiles));
        }
        match self.read(alloc, vault, at.root, at.rule_type, file)? {
            Some(entries) => Ok(Some(entries)),
            None => match at.opener {
                Opener::Service | Opener::Other => Ok(None),
                Opener::Last(service) => Err(refused(alloc, service, 0, FaultKind::NoService)),
                Opener::Rule(name, line) => {
                    Err(refused(alloc, name, line, FaultKind::IncludeAbsent))
                }
            },
        }
    }

    /// Adds the line of a rule.
    fn add_line(
        &mut self,
        alloc: Global,
        name: &[u8],
        line: u32,
        rule: Rule,
        nodes: &mut Nodes,
    ) -> Result<(), Refuse<LoadFault>>
        ensures { AddsLine result self.old self.new (stack_of nodes.old.vec.items)
            (stack_of nodes.new.vec.items)
            name.now line rule }
    {
        if self.lines >= MAX_LINES {
            return Err(refused(alloc, name, line, FaultKind::TooManyLines));
        }
        nodes.push(Node::Line(rule))?;
        self.lines += 1;
        Ok(())
    }

    /// Processes an entry of the file with this name, if it is for the type: adds its line, or
    /// returns the file that it includes.
    fn take_entry(
        &mut self,
        alloc: Global,
        rule_type: RuleType,
        name: &[u8],
        entry: ConfigEntry,
        nodes: &mut Nodes,
    ) -> Result<Option<Inclusion>, Refuse<LoadFault>>
        ensures { TakesEntry result self.old self.new (stack_of nodes.old.vec.items)
            (stack_of nodes.new.vec.items)
            rule_type name.now entry }
    {
        if !entry.serves(rule_type) {
            return Ok(None);
        }
        let ConfigEntry { line, content, .. } = entry;
        let (included, as_substack) = match content {
            RuleContent::Line(rule) => {
                self.add_line(alloc, name, line, rule, nodes)?;
                return Ok(None);
            }
            RuleContent::Include(included) => (included, false),
            RuleContent::Substack(included) => (included, true),
        };
        Ok(Some(Inclusion {
            line,
            file: RuleFile::plain(included),
            as_substack,
        }))
    }

    /// Adds the nodes of a file, and returns whether it exists.
    pub(crate) fn add_file(
        &mut self,
        alloc: Global,
        vault: &mut dyn Vault,
        at: Position,
        file: &RuleFile,
        nodes: &mut Nodes,
    ) -> Result<bool, Refuse<LoadFault>>
        requires { at.level ≤ 17 }
        ensures tells { vault_tells vault.new ≡ vault_tells vault.old }
        ensures told { IsTrue (vault_tells vault.old) → Brings result
            (texts_of at.entry.root.now (vault_holds vault.old))
            (load_state self.old (vault_holds vault.old))
            (load_state self.new (vault_holds vault.new))
            (items_at (texts_of at.entry.root.now (vault_holds vault.old)) at.entry.level
            at.entry.rule_type (opener_of at.entry.opener) file.now)
            (stack_of nodes.old.vec.items) (stack_of nodes.new.vec.items)
            (nodes_at (texts_of at.entry.root.now (vault_holds vault.old)) at.entry.level
            at.entry.rule_type file.now) }
        ensures there { IsTrue (vault_tells vault.old) → IfOk result (λ there.
            there ≡ not (is_absent (held (texts_of at.entry.root.now
            (vault_holds vault.old)) file.now))) }
        ensures grows { OnOk result (Grows at.entry.level self.old self.new
            (stack_of nodes.old.vec.items) (stack_of nodes.new.vec.items)) }
        ensures faults { CountsFaults result (vault_faults vault.old) (vault_faults vault.new) }
    {
        let Some(entries) = self.open(alloc, vault, at, file)? else {
            return Ok(false);
        };
        for entry in entries.into_vec() {
            let name = file.name.bytes();
            let Some(inclusion) = self.take_entry(alloc, at.rule_type, name, entry, nodes)? else {
                continue;
            };
            let deeper = Position {
                level: at.level + 1,
                opener: Opener::Rule(name, inclusion.line),
                ..at
            };
            let mut inner = Nodes::new(alloc);
            self.add_file(alloc, vault, deeper, &inclusion.file, &mut inner)?;
            inclusion.bring_in(inner, nodes)?;
        }
        Ok(true)
    }

    /// The stack of a service for a type: the service's own nodes or, if it has none, those of
    /// `other`.
    pub(crate) fn tree(
        &mut self,
        alloc: Global,
        vault: &mut dyn Vault,
        root: &[u8],
        rule_type: RuleType,
        files: &ServiceFiles,
    ) -> Result<Nodes, Refuse<LoadFault>>
        ensures tells { vault_tells vault.new ≡ vault_tells vault.old }
        ensures told { IsTrue (vault_tells vault.old) → Makes result
            (texts_of root.now (vault_holds vault.old))
            (load_state self.old (vault_holds vault.old))
            (load_state self.new (vault_holds vault.new)) files.now.own files.now.other rule_type }
        ensures bounded { IfOk result (λ nodes. IsBounded (stack_of nodes.vec.items)) }
        ensures faults { CountsFaults result (vault_faults vault.old) (vault_faults vault.new) }
    {
        self.lines = 0;
        let at = Position {
            root,
            rule_type,
            level: 0,
            opener: Opener::Service,
        };
        let mut nodes = Nodes::new(alloc);
        let there = self.add_file(alloc, vault, at, &files.own, &mut nodes)?;
        if !nodes.is_empty() {
            return Ok(nodes);
        }
        let opener = opener_of_other(there, &files.own);
        let next = Position { opener, ..at };
        self.add_file(alloc, vault, next, &files.other, &mut nodes)?;
        Ok(nodes)
    }

    /// The stacks of a service for all four types.
    pub(crate) fn trees(
        &mut self,
        alloc: Global,
        vault: &mut dyn Vault,
        root: &[u8],
        files: &ServiceFiles,
    ) -> Result<Trees, Refuse<LoadFault>>
        ensures tells { vault_tells vault.new ≡ vault_tells vault.old }
        ensures told { IsTrue (vault_tells vault.old) → LoadsBy result
            (look (texts_of root.now (vault_holds vault.old)) (vault_holds vault.old).fails
            (counts_of self.old (vault_holds vault.old))
            (trees_items (texts_of root.now (vault_holds vault.old)) files.now.own files.now.other))
            (vault_holds vault.new) (tree_from (texts_of root.now
            (vault_holds vault.old)) files.now.own files.now.other) }
        ensures stays { IsTrue (vault_tells vault.old) →
            OnlyCalls (vault_holds vault.old) (vault_holds vault.new) }
        ensures bounded { IfOk result (λ trees. AreBounded trees) }
        ensures faults { CountsFaults result (vault_faults vault.old) (vault_faults vault.new) }
    {
        let mut trees = Trees::new(alloc);
        for rule_type in &ALL_TYPES {
            let nodes = self.tree(alloc, vault, root, *rule_type, files)?;
            trees.put(*rule_type, nodes);
        }
        Ok(trees)
    }
}
