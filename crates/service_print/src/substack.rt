ghost use Rattle.std.specs.Prelude.{◌≡◌, ◌<◌, ◌++◌, length, slice_set, OnOk};
ghost use Rattle.control_words.specs.Stack.{stack_of};
ghost use Rattle.service_print.specs.Filling.{empty_file};
ghost use Rattle.service_print.specs.Tokens.{ended, text_of};
ghost use Rattle.service_print.specs.Printed.{list_lines, numbered, rule_line, substack_files, substack_line};

use crate::file::File;
use crate::line::{numbered, rule_line, substack_line};
use crate::token::add_line;
use control_words::{Node, Nodes, Rule};
use pam_base::{NoMemory, Text};
use service_load::RuleType;
use std::alloc::Global;

/// A file without lines, which is filled later. It does not allocate.
pub fn empty_file(alloc: Global) -> File
    ensures { result ≡ empty_file }
{
    File {
        name: Text::new(alloc),
        text: Text::new(alloc),
    }
}

// Adds the line of the substack that has this number.
fn add_substack_line(
    alloc: Global,
    service: &[u8],
    rule_type: RuleType,
    number: usize,
    text: &mut Vec<u8>,
) -> Result<(), NoMemory>
    ensures { OnOk result (text.new.items ≡ text.old.items
        ++ ended (substack_line rule_type (numbered service.now number))) }
{
    let name = numbered(alloc, service, number)?;
    let line = substack_line(alloc, rule_type, &name)?;
    add_line(&line, text)
}

fn add_rule_line(
    alloc: Global,
    rule_type: RuleType,
    rule: &Rule,
    text: &mut Vec<u8>,
) -> Result<(), NoMemory>
    ensures { OnOk result (text.new.items ≡ text.old.items
        ++ ended (rule_line rule_type rule.now)) }
{
    let line = rule_line(alloc, rule_type, rule)?;
    add_line(&line, text)
}

/// Fills the file with this index. It does not allocate.
pub fn fill(number: usize, name: Vec<u8>, text: Vec<u8>, files: &mut Vec<File>)
    requires { number < length files.old.items }
    ensures { files.new.items ≡ slice_set files.old.items number
        (record { name = name.items; text = text.items }) }
{
    files[number] = File {
        name: Text::from_vec(name),
        text: Text::from_vec(text),
    };
}

/// Adds the lines of a list of nodes to the text of its file, and the files of its substacks, which
/// are numbered by their indices among the files.
pub fn add_nodes(
    alloc: Global,
    service: &[u8],
    rule_type: RuleType,
    nodes: &Nodes,
    text: &mut Vec<u8>,
    files: &mut Vec<File>,
) -> Result<(), NoMemory>
    ensures lines { OnOk result (text.new.items ≡ text.old.items
        ++ text_of (list_lines service.now rule_type (length files.old.items)
        (stack_of nodes.now.vec.items))) }
    ensures files { OnOk result (files.new.items ≡ files.old.items
        ++ substack_files service.now rule_type (length files.old.items)
        (stack_of nodes.now.vec.items)) }
{
    for node in &nodes.vec {
        match node {
            Node::Line(rule) => add_rule_line(alloc, rule_type, rule, text)?,
            Node::Sub(inner) => {
                let number = files.len();
                add_substack_line(alloc, service, rule_type, number, text)?;
                // Its index comes before those of the substacks inside it.
                files.push(empty_file(alloc))?;
                let mut inner_text = Vec::new(alloc);
                add_nodes(alloc, service, rule_type, inner, &mut inner_text, files)?;
                let name = numbered(alloc, service, number)?;
                fill(number, name, inner_text, files);
            }
        }
    }
    Ok(())
}
