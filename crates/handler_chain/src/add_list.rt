ghost use Rattle.std.specs.Prelude.{◌≡◌, ◌≤◌, ◌+◌, ◌∷◌, ◌++◌, ◌<◌, ◌^◌, length, OnOk, IfOk};
ghost use Rattle.control_words.specs.Stack.{stack_of, lines_in, depth};
ghost use Rattle.handler_chain.specs.FlatLines.{number_of_name};
ghost use Rattle.handler_chain.specs.Flat.{positions_after, AddsList};

use crate::chain_line::ChainLine;
use crate::line_count::line_count;
use control_words::{Node, Nodes, module_name};
use pam_base::{NoMemory, Texts};
use std::alloc::Global;

// The index of the first of several names that is this one.
fn number_of(names: &Texts, wanted: &[u8]) -> Option<u32>
    requires { length names.now < 2 ^ 32 }
    ensures { result ≡ number_of_name wanted.now 0 names.now }
{
    for (i, name) in names.items().iter().enumerate() {
        if name.bytes() == wanted {
            return Some(i as u32);
        }
    }
    None
}

// Adds the positions between the nodes of a list, whose first line has the index `first`.
fn add_positions(positions: &mut Vec<usize>, nodes: &Nodes, first: usize) -> Result<(), NoMemory>
    requires few { first + lines_in (stack_of nodes.now.vec.items) ≤ 4096 }
    ensures { OnOk result (positions.new.items ≡ positions.old.items ++ first
        ∷ positions_after first (stack_of nodes.now.vec.items)) }
{
    positions.push(first)?;
    let mut position = first;
    for node in &nodes.vec {
        position += match node {
            Node::Line(_) => 1,
            Node::Sub(inner) => line_count(inner),
        };
        positions.push(position)?;
    }
    Ok(())
}

/// Adds the lines of a list at a level; n substacks were opened after the last line before it.
pub fn add_list(
    alloc: Global,
    nodes: &Nodes,
    names: &Texts,
    level: u32,
    opens: u32,
    lines: &mut Vec<ChainLine>,
    positions: &mut Vec<usize>,
) -> Result<(), NoMemory>
    requires few { length lines.old.items + lines_in (stack_of nodes.now.vec.items) ≤ 4096 }
    requires numbered { length names.now < 2 ^ 32 }
    requires shallow { level + depth (stack_of nodes.now.vec.items) ≤ 16 }
    requires opens { opens ≤ level }
    ensures added { OnOk result (AddsList names.now level opens
        (stack_of nodes.now.vec.items) lines.old.items lines.new.items positions.old.items
        positions.new.items) }
    ensures counted { OnOk result (length lines.new.items
        ≡ length lines.old.items + lines_in (stack_of nodes.now.vec.items)) }
{
    let mut past_end = positions.len();
    add_positions(positions, nodes, lines.len())?;
    let mut opens = opens;
    let mut left = nodes.vec.len();
    for node in &nodes.vec {
        past_end += 1;
        left -= 1;
        match node {
            Node::Line(rule) => {
                let module_number = number_of(names, module_name(rule.path.bytes()));
                let rule = rule.copied(alloc)?;
                lines.push(ChainLine {
                    rule,
                    module_number,
                    level,
                    opens,
                    left,
                    past_end,
                })?;
                opens = 0;
            }
            Node::Sub(inner) => {
                let before = lines.len();
                add_list(alloc, inner, names, level + 1, opens + 1, lines, positions)?;
                if lines.len() > before {
                    opens = 0;
                }
            }
        }
    }
    Ok(())
}
