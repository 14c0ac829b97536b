ghost use Rattle.std.specs.Prelude.{◌≡◌, OnOk};
ghost use Rattle.control_words.specs.Stack.{joined, stack_of};
ghost use Rattle.service_load.specs.Loading.{brought_in};

use crate::rule_file::RuleFile;
use control_words::{Node, Nodes};
use pam_base::NoMemory;

/// A file that a rule includes.
#[derive(Drop)]
pub(crate) struct Inclusion {
    /// The number of the rule's first physical line, from 1.
    pub(crate) line: u32,
    pub(crate) file: RuleFile,
    /// Whether its nodes are a substack.
    pub(crate) as_substack: bool,
}

impl Inclusion {
    /// Adds the nodes of the file to those of the file that includes it.
    pub(crate) fn bring_in(self, mut inner: Nodes, nodes: &mut Nodes) -> Result<(), NoMemory>
        ensures { OnOk result (stack_of nodes.new.vec.items ≡
            joined (stack_of nodes.old.vec.items) (brought_in self.as_substack
            (stack_of inner.vec.items))) }
    {
        if self.as_substack {
            nodes.push(Node::Sub(inner))
        } else {
            nodes.vec.append(&mut inner.vec)?;
            Ok(())
        }
    }
}
