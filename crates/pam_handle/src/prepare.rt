ghost use Rattle.std.specs.Prelude.{◌≡◌, ◌<◌, ◌^◌, Some, map, length, IfOk, IsTrue, OnOk};
ghost use Rattle.std.specs.Option.{option_copied};
ghost use Rattle.dispatch_core.specs.Lines.{names_of};
ghost use Rattle.dispatch_core.specs.service_load.specs.Load.{AreBounded};
ghost use Rattle.dispatch_core.specs.service_load.specs.Trees.{stacks_of_trees};
ghost use Rattle.pam_handle.specs.Plain.{stacks_in};
ghost use Rattle.pam_handle.specs.Start.{first_texts};

use crate::chains::Chains;
use crate::gear::{Gear, GearTold};
use dispatch_core::handler_chain::flatten;
use dispatch_core::pam_room::{Module, name_of, set_item};
use dispatch_core::service_load::{ALL_TYPES, Trees};
use item_store::Items;
use pam_base::{ItemName, NoMemory, Text, Texts, lowercase};
use std::alloc::Global;

/// The items of a transaction that is started: SERVICE, in lower case, and USER if it is known.
pub(crate) fn first_items(
    alloc: Global,
    service: &[u8],
    user: Option<&[u8]>,
) -> Result<Items, NoMemory>
    ensures { IfOk result (λ items. items ≡ first_texts service.now (option_copied user.entry)) }
{
    let mut items = Items::new(alloc);
    items.set_service(lowercase(alloc, service)?.bytes())?;
    if let Some(user) = user {
        set_item(&mut items, ItemName::User, user)?;
    }
    Ok(items)
}

/// The names of the modules, in order.
fn module_names(alloc: Global, gear: &Gear) -> Result<Texts, NoMemory>
    ensures { IfOk result (λ names. names ≡ names_of (⟦<Gear as GearTold>⟧.players gear.now)) }
{
    names_in(alloc, &gear.mods)
}

/// Makes the names those of the modules, in order; if they are already, nothing is allocated.
pub(crate) fn name_modules(alloc: Global, gear: &Gear, names: &mut Texts) -> Result<(), NoMemory>
    ensures { OnOk result (names.new ≡ names_of (⟦<Gear as GearTold>⟧.players gear.now)) }
{
    if are_named(&gear.mods, names.items()) {
        return Ok(());
    }
    *names = module_names(alloc, gear)?;
    Ok(())
}

// Whether these are the modules' names, in order.
fn are_named(mods: &[Box<dyn Module>], names: &[Text]) -> bool
    ensures { IsTrue result → names.now ≡ map label mods.now }
{
    match (mods, names) {
        ([], []) => true,
        ([handler, mods @ ..], [name, names @ ..]) => {
            name_of(handler) == name.bytes() && are_named(mods, names)
        }
        _ => false,
    }
}

fn names_in(alloc: Global, mods: &[Box<dyn Module>]) -> Result<Texts, NoMemory>
    ensures { IfOk result (λ names. names ≡ map label mods.now) }
{
    let mut names = Texts::from_vec(Vec::with_capacity(alloc, mods.len())?);
    for handler in mods {
        names.push(Text::from_bytes(alloc, name_of(handler))?)?;
    }
    Ok(names)
}

/// The stacks of a service, flattened for modules with these names.
pub(crate) fn lay_flat(alloc: Global, trees: &Trees, names: &Texts) -> Result<Chains, NoMemory>
    requires bounded { AreBounded trees.now }
    requires few { length names.now < 2 ^ 32 }
    ensures stacks { IfOk result (λ chains. stacks_in chains ≡ stacks_of_trees trees.now) }
    ensures names { IfOk result (λ chains. chains.by_type.auth.names ≡ names.now) }
{
    let mut chains = Chains::new(alloc, names);
    for rule_type in &ALL_TYPES {
        let chain = flatten(alloc, trees.of(*rule_type), names)?;
        chains.put(*rule_type, chain);
    }
    Ok(chains)
}
