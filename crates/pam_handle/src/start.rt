ghost use Rattle.std.specs.Prelude.{◌≡◌, ◌<◌, ◌^◌, ◌+◌, ℕ, Result, Err, IsTrue, IfOk, IfErr, MatchResult, length};
ghost use Rattle.std.specs.Option.{option_copied};
ghost use Rattle.pam_base.specs.ServiceName.{is_service_name};
ghost use Rattle.dispatch_core.specs.Lines.{names_of};
ghost use Rattle.dispatch_core.specs.service_load.specs.Load.{AreBounded};
ghost use Rattle.dispatch_core.specs.service_load.specs.Trees.{stacks_of_trees};
ghost use Rattle.dispatch_core.specs.service_load.specs.Loading.{CountsFaults, OnlyCalls};
ghost use Rattle.pam_handle.specs.Around.{IsReady};
ghost use Rattle.pam_handle.specs.Plain.{Keeps, in_box, plain_handle, room_in, stacks_in};
ghost use Rattle.pam_handle.specs.Start.{Prepares, RefusalCounts, StartsAs, first_texts, handle_with, new_handle, started};

use crate::around::{CallTold, Calls};
use crate::chains::Chains;
use crate::gear::{Gear, GearTold};
use crate::handle::Handle;
use crate::prepare::{first_items, lay_flat, name_modules};
use crate::start_cache::StartCache;
use dispatch_core::conv_port::Conv;
use dispatch_core::pam_room::{Room, RoomTold, Transaction, World, WorldTold};
use dispatch_core::service_load::{LoadFault, Trees, load_with};
use frozen_chain::Kept;
use item_store::Items;
use pam_base::{NoMemory, Refuse, Texts};
use std::alloc::Global;

/// A refused start: the conversation as it was passed in, and why.
#[derive(Drop)]
pub struct StartRefused {
    pub conv: Box<dyn Conv>,
    pub why: Refuse<LoadFault>,
}

impl Handle {
    /// Starts a transaction (`pam_start(3)`) with this number: the stacks of the service are
    /// loaded, and flattened for the modules. SERVICE, in lower case, and USER, if known, are set,
    /// and no other item; the delay function is off.
    ///
    /// A text of a service file that is in the cache, the same byte for byte, isn't parsed again. The cache holds what
    /// earlier starts kept.
    ///
    /// It is refused exactly if `load` is, or if memory runs out; then it returns the conversation.
    /// In either case nothing of the world changes except the number of file accesses.
    pub fn start(
        alloc: Global,
        gear: &Gear,
        world: &mut World,
        number: u32,
        service: &[u8],
        user: Option<&[u8]>,
        conv: Box<dyn Conv>,
        cache: &mut StartCache,
    ) -> Result<Handle, StartRefused>
        requires service { IsTrue (is_service_name service.now) }
        ensures conv { IfOk result (λ handle. (room_in handle).conv ≡ conv) }
        ensures given_back { IfErr result (λ refused. refused.conv ≡ conv) }
        ensures tells { Keeps ⟦<World as WorldTold>⟧.tells world.old world.new }
        ensures told { IsTrue (vault_tells (in_box world.old.vault)) →
            (let plain = ⟦<World as WorldTold>⟧.plain in
            let s = started number service.now (option_copied user.entry) (conv_holds conv)
            (names_of (⟦<Gear as GearTold>⟧.players gear.now)) (plain world.old) in
            StartsAs ⟦<Room as RoomTold>⟧.plain s result (plain world.new)) }
        ensures calls { let plain = ⟦<World as WorldTold>⟧.plain in
            IsTrue (vault_tells (in_box world.old.vault)) →
            OnlyCalls (plain world.old).vault (plain world.new).vault }
        ensures fresh { IfOk result (λ handle.
            let seen = ⟦<Calls as CallTold>⟧.seen gear.now handle world.new in
            seen.handle ≡ new_handle number service.now (option_copied user.entry) (conv_holds conv)
            (names_of seen.players) seen.handle.stacks) }
        ensures ready { IfOk result (λ handle.
            IsReady (⟦<Calls as CallTold>⟧.seen gear.now handle world.new)) }
        ensures others { world.new ≡ record world.old { vault = world.new.vault } }
        ensures vault_tells { vault_tells (in_box world.new.vault)
            ≡ vault_tells (in_box world.old.vault) }
        ensures faults { MatchResult result (λ _. vault_faults (in_box world.new.vault)
            ≡ vault_faults (in_box world.old.vault)) (λ refused. RefusalCounts refused.why
            (vault_faults (in_box world.old.vault))
            (vault_faults (in_box world.new.vault))) }
    {
        match prepare(alloc, gear, world, service, user, cache) {
            Ok((items, chains)) => Ok(build_handle(alloc, number, items, chains, conv)),
            Err(why) => Err(StartRefused { conv, why }),
        }
    }
}

// The part of a start that may be refused: the items and the stacks of the transaction.
fn prepare(
    alloc: Global,
    gear: &Gear,
    world: &mut World,
    service: &[u8],
    user: Option<&[u8]>,
    cache: &mut StartCache,
) -> Result<(Items, Chains), Refuse<LoadFault>>
    requires { length (⟦<Gear as GearTold>⟧.players gear.now) < 2 ^ 32 }
    ensures tells { Keeps ⟦<World as WorldTold>⟧.tells world.old world.new }
    ensures told { let plain = ⟦<World as WorldTold>⟧.plain in
        IsTrue (vault_tells (in_box world.old.vault)) →
        Prepares result (plain world.old) (plain world.new).vault service.now }
    ensures calls { let plain = ⟦<World as WorldTold>⟧.plain in
        IsTrue (vault_tells (in_box world.old.vault)) →
        OnlyCalls (plain world.old).vault (plain world.new).vault }
    ensures items { IfOk result (λ parts. parts.0
        ≡ first_texts service.now (option_copied user.entry)) }
    ensures names { IfOk result (λ parts. parts.1.by_type.auth.names
        ≡ names_of (⟦<Gear as GearTold>⟧.players gear.now)) }
    ensures others { world.new ≡ record world.old { vault = world.new.vault } }
    ensures vault_tells { vault_tells (in_box world.new.vault)
        ≡ vault_tells (in_box world.old.vault) }
    ensures faults { CountsFaults result (vault_faults (in_box world.old.vault))
        (vault_faults (in_box world.new.vault)) }
{
    let trees = load_with(
        alloc,
        &mut *world.vault,
        world.process.root.bytes(),
        service,
        &mut cache.texts,
    )?;
    Ok(laid_out(alloc, gear, &mut cache.names, &trees, service, user)?)
}

// The items and the stacks of a transaction, once its service is loaded.
fn laid_out(
    alloc: Global,
    gear: &Gear,
    names: &mut Texts,
    trees: &Trees,
    service: &[u8],
    user: Option<&[u8]>,
) -> Result<(Items, Chains), NoMemory>
    requires bounded { AreBounded trees.now }
    ensures items { IfOk result (λ parts. parts.0
        ≡ first_texts service.now (option_copied user.entry)) }
    ensures stacks { IfOk result (λ parts. stacks_in parts.1 ≡ stacks_of_trees trees.now) }
    ensures names { IfOk result (λ parts. parts.1.by_type.auth.names
        ≡ names_of (⟦<Gear as GearTold>⟧.players gear.now)) }
{
    name_modules(alloc, gear, names)?;
    let chains = lay_flat(alloc, trees, names)?;
    let items = first_items(alloc, service, user)?;
    Ok((items, chains))
}

// Allocates nothing, since its result can't be dropped.
fn build_handle(
    alloc: Global,
    number: u32,
    items: Items,
    chains: Chains,
    conv: Box<dyn Conv>,
) -> Handle
    ensures conv { (room_in result).conv ≡ conv }
    ensures plain { plain_handle ⟦<Room as RoomTold>⟧.plain result
        ≡ handle_with number items (conv_holds conv) chains.by_type.auth.names (stacks_in chains) }
{
    let mut transaction = Transaction::new(alloc, number);
    transaction.items = items;
    Handle {
        room: Room { transaction, conv },
        chains,
        authenticated: Kept::none(),
        opened: Kept::none(),
        delay_on: false,
        pending: None,
        waited: None,
    }
}
