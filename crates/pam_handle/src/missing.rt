ghost use Rattle.std.specs.Prelude.{◌≡◌, ◌<◌, ◌++◌, IfOk, OnOk};
ghost use Rattle.dispatch_core.specs.control_words.specs.Stack.{lines_in};
ghost use Rattle.dispatch_core.specs.handler_chain.specs.FlatLines.{rule_at};
ghost use Rattle.pam_handle.specs.Items.{missing_from, missing_in, missing_of};
ghost use Rattle.pam_handle.specs.Plain.{plain_handle};

use crate::handle::Handle;
use dispatch_core::control_words::module_name;
use dispatch_core::handler_chain::Chain;
use dispatch_core::pam_room::{Room, RoomTold};
use dispatch_core::service_load::ALL_TYPES;
use pam_base::{NoMemory, Text, Texts};
use std::alloc::Global;

impl Handle {
    /// The names of the modules that lines name and that weren't among those of the start, in the
    /// order of the stacks auth, account, password and session, and in each in written order. A
    /// name is listed once for each line that names it; a line that is silent about its module (a
    /// `-` before its type, `pam.conf(5)`) adds none.
    pub fn missing(&self, alloc: Global) -> Result<Texts, NoMemory>
        ensures { let plain = plain_handle ⟦<Room as RoomTold>⟧.plain in
            IfOk result (λ names. names
            ≡ missing_from (plain self.now).names (plain self.now).stacks) }
    {
        let mut names = Texts::new(alloc);
        for rule_type in &ALL_TYPES {
            add_missing(alloc, self.chains.of(*rule_type), &mut names)?;
        }
        Ok(names)
    }
}

// Adds the names of the modules missing in one stack.
fn add_missing(alloc: Global, chain: &Chain, names: &mut Texts) -> Result<(), NoMemory>
    ensures { OnOk result (names.new ≡ names.old ++ missing_in chain.now.names chain.now.nodes) }
{
    for i in 0..chain.len() {
        add_if_missing(alloc, chain, i, names)?;
    }
    Ok(())
}

fn add_if_missing(alloc: Global, chain: &Chain, i: usize, names: &mut Texts) -> Result<(), NoMemory>
    requires { i < lines_in chain.now.nodes }
    ensures { OnOk result (names.new ≡ names.old
        ++ missing_of chain.now.names (rule_at chain.now.nodes i)) }
{
    if !chain.silent(i) && chain.module(i).is_none() {
        let name = module_name(chain.path(i).bytes());
        names.push(Text::from_bytes(alloc, name)?)?;
    }
    Ok(())
}
