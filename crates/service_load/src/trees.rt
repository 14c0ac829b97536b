use crate::by_type::ByType;
use control_words::Nodes;
use std::alloc::Global;

/// The stacks of a service, one for each type of rule (`pam.conf(5)`).
pub type Trees = ByType<Nodes>;

impl Trees {
    ghost use Rattle.std.specs.Prelude.{◌≡◌};
    ghost use Rattle.control_words.specs.Stack.{none};
    ghost use Rattle.service_load.specs.Stacks.{stacks_of};
    ghost use Rattle.service_load.specs.Trees.{stacks_of_trees};

    /// Stacks without a line.
    pub(crate) fn new(alloc: Global) -> Self
        ensures { stacks_of_trees result ≡ stacks_of (λ _. none) }
    {
        ByType {
            auth: Nodes::new(alloc),
            account: Nodes::new(alloc),
            password: Nodes::new(alloc),
            session: Nodes::new(alloc),
        }
    }
}
