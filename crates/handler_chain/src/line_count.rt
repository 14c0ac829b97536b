ghost use Rattle.std.specs.Prelude.{◌≡◌, ◌≤◌};
ghost use Rattle.control_words.specs.Stack.{stack_of, lines_in};

use control_words::{Node, Nodes};

/// How many lines a list has, including those of its substacks.
pub fn line_count(nodes: &Nodes) -> usize
    requires few { lines_in (stack_of nodes.now.vec.items) ≤ 4096 }
    ensures { result ≡ lines_in (stack_of nodes.now.vec.items) }
{
    let mut count = 0;
    for node in &nodes.vec {
        count += match node {
            Node::Line(_) => 1,
            Node::Sub(inner) => line_count(inner),
        };
    }
    count
}
