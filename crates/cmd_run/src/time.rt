ghost use Rattle.std.specs.Prelude.{◌≡◌, ◌≤◌, ℕ, Bool, IsTrue, is_none};
ghost use Rattle.cmd_run.specs.Time.{KeepsTime};

use pam_outside::{MAX_MOMENT, set_moment};
use report_step::pam_room::{World, WorldTold};

/// The time of day, of which a run's owner alone can ask. Modules and the library see the time of the world's clock,
/// which stands still until it is set.
pub trait TimeOfDay: Drop {
    /// Whether contracts know its answers: it is modelled.
    ghost time_tells: { Self → Bool };

    /// The answers of a modelled one, by how many items or calls came before the question.
    ghost time_gives: { Self → ℕ → ℕ };

    /// The seconds since 1970, at most `MAX_MOMENT`. The number of items or calls that came before is for a time that is
    /// made for a test; the system's doesn't look at it.
    fn seconds(&self, before: u32) -> u64
        ensures bound { result ≤ MAX_MOMENT }
        ensures told { IsTrue (time_tells self.now) → result ≡ time_gives self.now before };
}

/// Names what contracts know of a time of day, which may be missing.
pub trait TimeTold {
    ghost use Rattle.cmd_run.specs.Time.{Timing};

    ghost timing: { Self → Timing };
}

impl TimeTold for Option<Box<dyn TimeOfDay>> {
    ghost use Rattle.cmd_run.specs.Time.{timing_of};

    ghost timing = { timing_of (λ b. (TimeOfDay-box b).time_tells b.value) (λ b.
        (TimeOfDay-box b).time_gives b.value) };
}

/// Sets the world's clock to the time of day, before an item or a call that `before` others came before. Without a time
/// of day it changes nothing. It changes nothing of the world but the clock.
pub fn keep_time(time: &Option<Box<dyn TimeOfDay>>, before: u32, world: &mut World)
    ensures sets { let told = ⟦<World as WorldTold>⟧ in
        KeepsTime (⟦<Option<Box<dyn TimeOfDay>> as TimeTold>⟧.timing time.now) before
        (is_none time.now) (told.tells world.old) (told.tells world.new) (told.plain world.old)
        (told.plain world.new) }
    ensures vault { world.new.vault ≡ world.old.vault }
    ensures nap { world.new.nap ≡ world.old.nap }
    ensures process { world.new.process ≡ world.old.process }
{
    match time {
        None => {}
        Some(day) => set_moment(&mut world.clock, day.seconds(before)),
    }
}
