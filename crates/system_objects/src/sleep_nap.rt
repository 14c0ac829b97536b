ghost use Rattle.std.specs.Prelude.{◌≡◌, false};

use pam_outside::Nap;
use std::rt::Clock as SystemClock;
use std::thread;
use std::time::Duration;

/// Sleeps, by the clock of a runtime that `main` gets. It isn't modelled.
#[derive(Drop)]
pub struct SleepNap<R: SystemClock + Drop> {
    rt: R,
}

impl<R: SystemClock + Drop> SleepNap<R> {
    /// It sleeps by this clock.
    pub fn new(rt: R) -> Self
        ensures { result ≡ record { rt = rt } }
    {
        SleepNap { rt }
    }
}

impl<R: SystemClock + Drop> Nap for SleepNap<R> {
    ghost nap_tells = { λ n. false };

    // never modelled
    ghost nap_holds = { λ n. record { waits = 0; sum = 0 } };

    fn rest(&mut self, micros: u32) {
        thread::sleep(&self.rt, Duration::from_micros(u64::from(micros)))
    }
}
