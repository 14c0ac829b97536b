ghost use Rattle.std.specs.Prelude.{IfOk, length};
ghost use Rattle.cmd_all.specs.ByCommand.{IsReady};
ghost use Rattle.cmd_all.specs.Opened.{IsAtRoot, IsFresh, OpensUnder, ResetsClock};

use crate::desk::{Desk, DeskTold};
use crate::outside::{Outside, OutsideTold};
use fail_delay::{DelayFn, DelayRule};
use pam_base::{NoMemory, Text};
use pam_library::pam_handle::Gear;
use pam_library::{Library, Session, Told};
use pam_outside::{set_moment, set_word};
use pam_room::World;
use std::alloc::Global;

/// A library with the modules, conversations and delay function of `desk`, in which no transaction
/// is open, over a world with an empty cleanup log. The terminal and the time of day are dropped.
pub(crate) fn library_of(alloc: Global, desk: Desk, world: &World) -> Result<Library, NoMemory>
    requires { IsReady (length desk.convs.items) (length desk.mods.items)
        (DelayRule.pre desk.delay) (DelayRule.post desk.delay) world.now.process.ledger }
    ensures { IfOk result (λ library. IsFresh (⟦<Desk as DeskTold>⟧.given desk)
        (⟦<Session as Told>⟧.seen library world.now)) }
{
    pam_library::laws::closed_places_have_no_events();
    let Desk {
        mods,
        convs,
        term: _,
        delay,
        time: _,
    } = desk;
    let gear = Gear {
        mods,
        delay: DelayFn::new(delay),
    };
    let library = Library::new(alloc, gear, convs)?;
    Ok(library)
}

/// The same library, and the world with this root. If an allocation fails, the world is as it was.
pub(crate) fn library_under(
    alloc: Global,
    root: &[u8],
    desk: Desk,
    world: &mut World,
) -> Result<Library, NoMemory>
    requires { IsReady (length desk.convs.items) (length desk.mods.items)
        (DelayRule.pre desk.delay) (DelayRule.post desk.delay) world.old.process.ledger }
    ensures { OpensUnder root.now result (⟦<Desk as DeskTold>⟧.given desk)
        (⟦<Outside as OutsideTold>⟧.around world.old world.new)
        (λ library. ⟦<Session as Told>⟧.seen library world.new) }
{
    let root = Text::from_bytes(alloc, root)?;
    let library = library_of(alloc, desk, world)?;
    set_root(world, root);
    Ok(library)
}

/// Sets the world's root.
fn set_root(world: &mut World, root: Text)
    ensures { IsAtRoot root (⟦<Outside as OutsideTold>⟧.around world.old world.new) }
{
    world.process.root = root;
}

/// Sets the time 0 and the random word 0.
pub(crate) fn reset_clock(world: &mut World)
    ensures { ResetsClock (⟦<Outside as OutsideTold>⟧.around world.old world.new) }
{
    set_moment(&mut world.clock, 0);
    set_word(&mut world.clock, 0);
}
