ghost use Rattle.std.specs.Prelude.{◌≡◌, false};

use cmd_all::TimeOfDay;
use std::rt::Clock as SystemClock;
use system_objects::system_moment;

/// The system's time of day.
#[derive(Drop)]
pub struct SystemTime<R: SystemClock + Drop> {
    rt: R,
}

impl<R: SystemClock + Drop> SystemTime<R> {
    /// That of a runtime that `main` gets.
    pub fn new(rt: R) -> Self
        ensures { result ≡ record { rt = rt } }
    {
        SystemTime { rt }
    }
}

impl<R: SystemClock + Drop> TimeOfDay for SystemTime<R> {
    ghost time_tells = { λ t. false };

    // nothing is known of it
    ghost time_gives = { λ t n. 0 };

    fn seconds(&self, _before: u32) -> u64 {
        system_moment(&self.rt)
    }
}
