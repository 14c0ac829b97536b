ghost use Rattle.std.specs.Prelude.{◌≡◌};

use dispatch_core::handler_chain::Chain;
use dispatch_core::service_load::{ByType, RuleType};
use pam_base::Texts;
use std::alloc::Global;

/// The stacks of a service, flattened for one list of modules (libpam's handler chains).
#[derive(Drop)]
pub struct Chains {
    pub by_type: ByType<Chain>,
    ghost account_names: { by_type.account.names ≡ by_type.auth.names },
    ghost password_names: { by_type.password.names ≡ by_type.auth.names },
    ghost session_names: { by_type.session.names ≡ by_type.auth.names },
}

impl Chains {
    ghost use Rattle.std.specs.Prelude.{◌<◌, ◌^◌, length};
    ghost use Rattle.dispatch_core.specs.control_words.specs.Stack.{none};
    ghost use Rattle.dispatch_core.specs.service_load.specs.Stacks.{stacks_of, with_stack};
    ghost use Rattle.pam_handle.specs.Plain.{nodes_in, stacks_in};

    /// Empty stacks, for modules with these names.
    pub(crate) fn new(alloc: Global, names: &Texts) -> Self
        requires { length names.now < 2 ^ 32 }
        ensures stacks { stacks_in result ≡ stacks_of (λ _. none) }
        ensures names { result.by_type.auth.names ≡ names.now }
    {
        let by_type = ByType {
            auth: Chain::new(alloc, names),
            account: Chain::new(alloc, names),
            password: Chain::new(alloc, names),
            session: Chain::new(alloc, names),
        };
        Chains { by_type }
    }

    /// The stack of a type.
    pub fn of(&self, rule_type: RuleType) -> &Chain
        ensures nodes { result.now.nodes ≡ nodes_in self.now rule_type }
        ensures names { result.now.names ≡ self.now.by_type.auth.names }
    {
        self.by_type.of(rule_type)
    }

    /// Sets the stack of a type; it was flattened for the same modules.
    pub(crate) fn put(&mut self, rule_type: RuleType, chain: Chain)
        requires { chain.names ≡ self.old.by_type.auth.names }
        ensures stacks { stacks_in self.new
            ≡ with_stack (stacks_in self.old) rule_type chain.nodes }
        ensures names { self.new.by_type.auth.names ≡ self.old.by_type.auth.names }
    {
        self.by_type.put(rule_type, chain);
    }
}
