ghost use Rattle.std.specs.Prelude.{◌≡◌};

use crate::nap::Nap;
use std::marker::Model;

/// A sleep that doesn't wait: it counts how often it would have, and adds up how long. Both counts stop at the maximum
/// of 64 bits. It is modelled.
#[derive(Drop)]
pub struct NapSum {
    waits: u64,
    sum: u64,
}

impl Model for NapSum {
    ghost use Rattle.pam_outside.specs.Time.{NapState};

    ghost Value = { NapState };

    ghost view = { λ n. record { waits = n.waits; sum = n.sum } };
}

impl NapSum {
    /// A sleep that hasn't waited yet.
    pub fn new() -> NapSum
        ensures { result ≡ record { waits = 0; sum = 0 } }
    {
        NapSum { waits: 0, sum: 0 }
    }

    /// How often it was to wait.
    pub fn waits(&self) -> u64
        ensures { result ≡ self.now.waits }
    {
        self.waits
    }

    /// How long it was to wait in all, in microseconds.
    pub fn sum(&self) -> u64
        ensures { result ≡ self.now.sum }
    {
        self.sum
    }
}

impl Nap for NapSum {
    ghost use Rattle.std.specs.Prelude.{true};

    ghost nap_tells = { λ n. true };

    ghost nap_holds = { λ n. n };

    fn rest(&mut self, micros: u32) {
        self.waits = self.waits.saturating_add(1);
        self.sum = self.sum.saturating_add(u64::from(micros));
    }
}
