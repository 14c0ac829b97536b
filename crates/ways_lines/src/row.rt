ghost use Rattle.std.specs.Prelude.{◌≡◌, ◌++◌, IfOk, OnOk};
ghost use Rattle.control_words.specs.Stack.{stack_of};
ghost use Rattle.ways_lines.specs.Rows.{rows_of};

use control_words::{Node, Nodes, Rule};
use pam_base::{NoMemory, Sequence};
use std::alloc::Global;

/// A step through a stack in written order.
#[derive(Debug, Drop)]
pub enum Row {
    Rule(Rule),
    /// A substack begins.
    Begin,
    /// The substack that began last ends.
    End,
}

/// A stack in written order.
pub type Rows = Sequence<Row>;

/// The rows of a stack: each of its lines, and each beginning and end of a substack.
pub fn rows_of(alloc: Global, nodes: &Nodes) -> Result<Rows, NoMemory>
    ensures { IfOk result (λ rows. rows ≡ rows_of (stack_of nodes.now.vec.items)) }
{
    let mut rows = Rows::new(alloc);
    add_rows(alloc, nodes.items(), &mut rows)?;
    Ok(rows)
}

fn add_rows(alloc: Global, nodes: &[Node], rows: &mut Rows) -> Result<(), NoMemory>
    ensures { OnOk result (rows.new ≡ rows.old ++ rows_of (stack_of nodes.now)) }
{
    for node in nodes {
        match node {
            Node::Line(rule) => rows.push(Row::Rule(rule.copied(alloc)?))?,
            Node::Sub(inner) => {
                rows.push(Row::Begin)?;
                add_rows(alloc, inner.items(), rows)?;
                rows.push(Row::End)?;
            }
        }
    }
    Ok(())
}
