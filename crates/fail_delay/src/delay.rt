ghost use Rattle.std.specs.Prelude.{◌≡◌, ◌≤◌, max};
ghost use Rattle.fail_delay.specs.Delay.{counted_request};

use std::marker::Model;

/// The longest request that counts, 60 seconds, in microseconds.
pub const LONGEST_REQUEST: u32 = 60_000_000;

/// The longest of the delays that were requested and not yet forgotten, in microseconds
/// (`pam_fail_delay(3)`). Contracts see that number, and 0 if there was no request.
#[derive(Debug, Drop)]
pub struct Delay {
    longest: u32,
}

impl Model for Delay {
    ghost use Rattle.std.specs.Prelude.{ℕ, ◌≤◌};
    ghost use Rattle.fail_delay.specs.declared.delay.TheConstants.{LONGEST_REQUEST};

    ghost Value = { ℕ };

    ghost view = { λ delay. delay.longest };

    ghost invariant = { λ delay. delay.longest ≤ LONGEST_REQUEST };
}

impl Delay {
    /// No request.
    pub fn new() -> Self
        ensures { result ≡ 0 }
    {
        Delay { longest: 0 }
    }

    /// A request, in microseconds. The longest of all requests counts; one above 60 seconds counts
    /// as 60 seconds.
    pub fn request(&mut self, micros: u32)
        ensures { self.new ≡ max (counted_request micros) self.old }
    {
        self.longest = self.longest.max(micros.min(LONGEST_REQUEST));
    }

    /// The longest request, in microseconds; 0 if there was none.
    pub fn longest(&self) -> u32
        ensures longest { result ≡ self.now }
        ensures counted { result ≤ LONGEST_REQUEST }
    {
        self.longest
    }

    /// Forgets all requests.
    pub fn forget(&mut self)
        ensures { self.new ≡ 0 }
    {
        self.longest = 0;
    }
}
