ghost use Rattle.std.specs.Prelude.{◌≡◌, ◌≤◌, ℕ, false, Some, IfNone, IfSome, IsTrue};
ghost use Rattle.dispatch_core.specs.fail_delay.specs.Delay.{asked_delay};
ghost use Rattle.dispatch_core.specs.fail_delay.specs.Wait.{wait_of};
ghost use Rattle.pam_base.specs.declared.code.Code.{Code};
ghost use Rattle.pam_handle.specs.AnyWorld.{AreUnset, WaitsFor, WaitsOnlyAtEnd};
ghost use Rattle.pam_handle.specs.Call.{WaitsAfter, random_taken_for, nap_after, rested_by, waited_by};
ghost use Rattle.pam_handle.specs.Plain.{Keeps, in_box};

use crate::ended::Ended;
use crate::gear::Gear;
use crate::wait::Wait;
use dispatch_core::fail_delay::{
    DelayFn, DelayTold, LONGEST_ASKED, LONGEST_REQUEST, compute_delay, wait_after,
};
use dispatch_core::pam_outside::{random_word, rest};
use dispatch_core::pam_room::{World, WorldTold};
use item_store::Items;
use pam_base::Code;

// Waits after an authentication that has ended (`pam_fail_delay(3)`), by the longest request in microseconds and by the
// delay function, if it is on. A wait replaces the record of an earlier one.
fn wait(
    gear: &Gear,
    world: &mut World,
    delay_on: bool,
    longest: u32,
    ended: Ended,
    waited: &mut Option<Wait>,
)
    requires { longest ≤ LONGEST_REQUEST }
    ensures tells { Keeps ⟦<World as WorldTold>⟧.tells world.old world.new }
    ensures told { let seen = ⟦<World as WorldTold>⟧ in
        (number : Code → ℕ → ℕ) → ⟦<DelayFn as DelayTold>⟧.delay_is gear.now.delay number →
        IsTrue (seen.tells world.old) →
        (let asked = asked_delay longest (seen.plain world.old).clock.word in
        (waited.new ≡ waited_by ended.entry.code asked
        (wait_of delay_on number ended.entry.code asked) waited.old)
        × (seen.plain world.new ≡ rested_by (wait_of delay_on number ended.entry.code asked)
        (random_taken_for longest (seen.plain world.old)))) }
    ensures sound { WaitsFor ended.entry.code delay_on waited.old waited.new
        (nap_tells (in_box world.old.nap)) (nap_holds (in_box world.old.nap))
        (nap_holds (in_box world.new.nap)) }
    ensures process { world.new.process ≡ world.old.process }
{
    let asked = asked_of(longest, world);
    let code = ended.code;
    if let Some(wait) = wait_by(gear, delay_on, code, asked) {
        rest_for(world, wait);
        *waited = Some(Wait { code, asked, wait });
    }
}

/// Waits after an authentication that has ended with this code, with these items, in which no token
/// is set; doesn't wait after one that hasn't ended.
pub(crate) fn sleep_after(
    gear: &Gear,
    world: &mut World,
    delay_on: bool,
    longest: u32,
    code: Option<Code>,
    items: &Items,
    waited: &mut Option<Wait>,
)
    requires longest { longest ≤ LONGEST_REQUEST }
    requires unset { IfSome code (λ _. AreUnset items.now) }
    ensures tells { Keeps ⟦<World as WorldTold>⟧.tells world.old world.new }
    ensures told { let seen = ⟦<World as WorldTold>⟧ in
        (number : Code → ℕ → ℕ) → ⟦<DelayFn as DelayTold>⟧.delay_is gear.now.delay number →
        IsTrue (seen.tells world.old) →
        WaitsAfter number code longest delay_on waited.old (seen.plain world.old) waited.new
        (seen.plain world.new) }
    ensures sound { WaitsOnlyAtEnd code delay_on waited.old waited.new
        (nap_tells (in_box world.old.nap)) (nap_holds (in_box world.old.nap))
        (nap_holds (in_box world.new.nap)) }
    ensures stays { IfNone code (world.new ≡ world.old) }
    ensures process { world.new.process ≡ world.old.process }
{
    if let Some(code) = code {
        wait(
            gear,
            world,
            delay_on,
            longest,
            Ended { code, items },
            waited,
        );
    }
}

// The requested delay; a random word is read only if a delay was requested.
fn asked_of(longest: u32, world: &mut World) -> u32
    requires { longest ≤ LONGEST_REQUEST }
    ensures tells { Keeps ⟦<World as WorldTold>⟧.tells world.old world.new }
    ensures told { let seen = ⟦<World as WorldTold>⟧ in IsTrue (seen.tells world.old) →
        result ≡ asked_delay longest (seen.plain world.old).clock.word }
    ensures random_taken { let seen = ⟦<World as WorldTold>⟧ in IsTrue (seen.tells world.old) →
        seen.plain world.new ≡ random_taken_for longest (seen.plain world.old) }
    ensures bound { result ≤ LONGEST_ASKED }
    ensures nap { world.new.nap ≡ world.old.nap }
    ensures process { world.new.process ≡ world.old.process }
{
    if longest == 0 {
        return 0;
    }
    compute_delay(longest, random_word(&mut *world.clock))
}

// The wait; the delay function is asked whenever it is on.
fn wait_by(gear: &Gear, delay_on: bool, code: Code, asked: u32) -> Option<u32>
    requires { asked ≤ LONGEST_ASKED }
    ensures wait { (number : Code → ℕ → ℕ) →
        ⟦<DelayFn as DelayTold>⟧.delay_is gear.now.delay number →
        result ≡ wait_of delay_on number code asked }
    ensures off { (number : Code → ℕ → ℕ) → delay_on ≡ false →
        result ≡ wait_of false number code asked }
    ensures within { IfSome result (λ wait. wait ≤ LONGEST_ASKED) }
{
    if delay_on {
        wait_after(Some(&gear.delay), code, asked)
    } else {
        wait_after(None, code, asked)
    }
}

fn rest_for(world: &mut World, wait: u32)
    ensures tells { Keeps ⟦<World as WorldTold>⟧.tells world.old world.new }
    ensures told { let seen = ⟦<World as WorldTold>⟧ in
        IsTrue (seen.tells world.old) →
        seen.plain world.new ≡ rested_by (Some wait) (seen.plain world.old) }
    ensures slept { IsTrue (nap_tells (in_box world.old.nap)) → nap_holds (in_box world.new.nap)
        ≡ nap_after (Some wait) (nap_holds (in_box world.old.nap)) }
    ensures process { world.new.process ≡ world.old.process }
{
    if wait > 0 {
        rest(&mut *world.nap, wait);
    }
}
