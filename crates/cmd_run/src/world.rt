ghost use Rattle.std.specs.Prelude.{◌≡◌, ◌≤◌};
ghost use Rattle.cmd_run.specs.Step.{SetsClock, at_moment, with_caller, with_word};

use pam_outside::{MAX_MOMENT, set_moment, set_word};
use report_step::pam_room::{World, WorldTold};

/// Sets the time of the world's clock, if that clock can be set.
pub(crate) fn set_world_moment(world: &mut World, moment: u64)
    requires { moment ≤ MAX_MOMENT }
    ensures sets { let told = ⟦<World as WorldTold>⟧ in
        SetsClock (at_moment moment) (told.tells world.old) (told.tells world.new)
        (told.plain world.old) (told.plain world.new) }
    ensures process { world.new.process ≡ world.old.process }
{
    set_moment(&mut world.clock, moment);
}

/// Sets the random word of the world's clock, if that clock can be set.
pub(crate) fn set_world_word(world: &mut World, word: u64)
    ensures sets { let told = ⟦<World as WorldTold>⟧ in
        SetsClock (with_word word) (told.tells world.old) (told.tells world.new)
        (told.plain world.old) (told.plain world.new) }
    ensures process { world.new.process ≡ world.old.process }
{
    set_word(&mut world.clock, word);
}

/// Sets the user ID of the calling process.
pub(crate) fn set_caller(world: &mut World, caller: u32)
    ensures tells { let told = ⟦<World as WorldTold>⟧ in told.tells world.new ≡ told.tells world.old }
    ensures plain { let plain = ⟦<World as WorldTold>⟧.plain in
        plain world.new ≡ with_caller caller (plain world.old) }
    ensures ledger { world.new.process.ledger ≡ world.old.process.ledger }
{
    world.process.caller = caller;
}
