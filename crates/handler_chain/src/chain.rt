ghost use Rattle.std.specs.Prelude.{◌≡◌, ◌<◌, ◌≤◌, ◌^◌, length, IfOk};
ghost use Rattle.control_words.specs.Stack.{depth, lines_in, none, stack_of};
ghost use Rattle.handler_chain.specs.FlatLines.{end_at, level_at, module_at, opens_at, rule_at, target_at};
ghost use Rattle.handler_chain.specs.Chain.{fresh_chain, looked};

use crate::add_list::add_list;
use crate::chain_line::ChainLine;
use crate::line_count::line_count;
use control_words::{Control, Nodes};
use pam_base::{NoMemory, SharedText, Texts};
use std::alloc::Global;
use std::marker::Model;
use std::snapshot::Snapshot;

/// A flattened stack: its lines by their indices from 0, in written order (libpam: the list of
/// `struct handler`). Contracts see the nested list and the names that it was made from, and how
/// often its nesting was looked up. No call allocates.
#[derive(Drop)]
pub struct Chain {
    lines: Vec<ChainLine>,
    positions: Vec<usize>,
    // What the chain was made from, for its contracts only: these take no bytes.
    nodes: Snapshot<Nodes>,
    names: Snapshot<Texts>,
    looks: u64,
}

impl Model for Chain {
    ghost use Rattle.control_words.specs.contracts.nodes.Rule as rule;
    ghost use Rattle.control_words.specs.Stack.{stack_of};
    ghost use Rattle.std.specs.Coded.{codes};
    ghost use Rattle.handler_chain.specs.Coding.{stack_code};
    ghost use Rattle.handler_chain.specs.Chain.{ChainView};

    ghost Value = { ChainView };

    ghost coded = { Prim.hlevel (codes, stack_code rule.the_row.coded) };

    ghost use Rattle.handler_chain.specs.Flat.{IsFlat};

    ghost view = { λ c. record {
      nodes = stack_of c.nodes.value.vec.items;
      names = c.names.value;
      looks = c.looks;
    } };

    ghost invariant = { λ c. IsFlat (stack_of c.nodes.value.vec.items) c.names.value c.lines.items
        c.positions.items };
}

/// Flattens a stack, for modules with these names.
pub fn flatten(alloc: Global, nodes: &Nodes, names: &Texts) -> Result<Chain, NoMemory>
    requires few { lines_in (stack_of nodes.now.vec.items) ≤ 4096 }
    requires numbered { length names.now < 2 ^ 32 }
    requires shallow { depth (stack_of nodes.now.vec.items) ≤ 16 }
    ensures { IfOk result (λ chain. chain ≡ fresh_chain (stack_of nodes.now.vec.items) names.now) }
{
    let mut lines = Vec::with_capacity(alloc, line_count(nodes))?;
    let mut positions = Vec::with_capacity(alloc, nodes.vec.len().saturating_add(1))?;
    add_list(alloc, nodes, names, 0, 0, &mut lines, &mut positions)?;
    Ok(Chain {
        lines,
        positions,
        nodes: Snapshot::of(nodes),
        names: Snapshot::of(names),
        looks: 0,
    })
}

impl Chain {
    /// An empty stack, for modules with these names.
    pub fn new(alloc: Global, names: &Texts) -> Self
        requires { length names.now < 2 ^ 32 }
        ensures { result ≡ fresh_chain none names.now }
    {
        let nodes = Nodes::new(alloc);
        Chain {
            lines: Vec::new(alloc),
            positions: Vec::new(alloc),
            nodes: Snapshot::of(&nodes),
            names: Snapshot::of(names),
            looks: 0,
        }
    }

    /// How many lines there are, including those of substacks.
    pub fn len(&self) -> usize
        ensures counted { result ≡ lines_in self.now.nodes }
        ensures bounded { result ≤ 4096 }
        ensures numbered { length self.now.names < 2 ^ 32 }
    {
        self.lines.len()
    }

    pub fn control(&self, i: usize) -> &Control
        requires { i < lines_in self.now.nodes }
        ensures { result.now ≡ (rule_at self.now.nodes i).control }
    {
        &self.lines[i].rule.control
    }

    /// The index, from 0, of the first name that is the name of the line's module: the last part of
    /// its path, without `.so`. None if no name is.
    pub fn module(&self, i: usize) -> Option<u32>
        requires { i < lines_in self.now.nodes }
        ensures { result ≡ module_at self.now.nodes self.now.names i }
    {
        self.lines[i].module_number
    }

    pub fn args(&self, i: usize) -> &Texts
        requires { i < lines_in self.now.nodes }
        ensures { result.now ≡ (rule_at self.now.nodes i).args }
    {
        &self.lines[i].rule.args
    }

    /// The path of the line's module, as it is written.
    pub fn path(&self, i: usize) -> &SharedText
        requires { i < lines_in self.now.nodes }
        ensures { result.now ≡ (rule_at self.now.nodes i).path }
    {
        &self.lines[i].rule.path
    }

    /// Whether no note is made of a missing module.
    pub fn silent(&self, i: usize) -> bool
        requires { i < lines_in self.now.nodes }
        ensures { result ≡ (rule_at self.now.nodes i).silent }
    {
        self.lines[i].rule.silent
    }

    /// Of how many substacks the line is the first one. This is a lookup, as `end`, `target` and
    /// `level` are: it takes constant time, raises `looks` by one, and changes nothing else.
    pub fn opens(&mut self, i: usize) -> u32
        requires { i < lines_in self.old.nodes }
        ensures value { result ≡ opens_at self.old.nodes i }
        ensures looked { self.new ≡ looked self.old }
    {
        let opens = self.lines[i].opens;
        self.looks = self.looks.saturating_add(1);
        opens
    }

    /// The index of the position after the last node of the line's list, which is how many lines
    /// are written before it.
    pub fn end(&mut self, i: usize) -> usize
        requires { i < lines_in self.old.nodes }
        ensures value { result ≡ end_at self.old.nodes i }
        ensures looked { self.new ≡ looked self.old }
    {
        let line = &self.lines[i];
        let end = self.positions[line.past_end + line.left];
        self.looks = self.looks.saturating_add(1);
        end
    }

    /// The index of the position after the n nodes that follow the line in its list; None if fewer
    /// follow.
    pub fn target(&mut self, i: usize, n: u8) -> Option<usize>
        requires { i < lines_in self.old.nodes }
        ensures value { result ≡ target_at self.old.nodes i n }
        ensures looked { self.new ≡ looked self.old }
    {
        let line = &self.lines[i];
        let target = if n as usize <= line.left {
            Some(self.positions[line.past_end + n as usize])
        } else {
            None
        };
        self.looks = self.looks.saturating_add(1);
        target
    }

    /// How many substacks are around the line.
    pub fn level(&mut self, i: usize) -> u32
        requires { i < lines_in self.old.nodes }
        ensures value { result ≡ level_at self.old.nodes i }
        ensures bounded { result ≤ 16 }
        ensures opens { opens_at self.old.nodes i ≤ result }
        ensures looked { self.new ≡ looked self.old }
    {
        let level = self.lines[i].level;
        self.looks = self.looks.saturating_add(1);
        level
    }

    /// How often its nesting was looked up: 0 for a new chain. The count saturates.
    pub fn looks(&self) -> u64
        ensures { result ≡ self.now.looks }
    {
        self.looks
    }
}
