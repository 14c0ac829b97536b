ghost use Rattle.std.specs.Prelude.{◌≡◌, ◌≤◌};
ghost use Rattle.pam_outside.specs.Counts.{next_count, fails_next};

use pam_base::Numbers;

/// The calls of an object in memory; those with the given numbers fail.
#[derive(Drop)]
pub struct Calls {
    pub made: u64,
    pub faults: u64,
    /// The numbers, from 1, of the calls planned to fail.
    pub fails: Numbers,
}

impl Calls {
    pub fn new(fails: Numbers) -> Calls
        ensures { result ≡ record { made = 0; faults = 0; fails = fails } }
    {
        Calls {
            made: 0,
            faults: 0,
            fails,
        }
    }

    /// Counts a call, and returns whether it is planned to fail.
    pub fn next_fails(&mut self) -> bool
        ensures counted { self.new ≡ record self.old { made = next_count self.old.made } }
        ensures fails { result ≡ fails_next self.old.made self.old.fails }
    {
        if self.made == u64::MAX {
            return false;
        }
        self.made += 1;
        self.fails.items().contains(&self.made)
    }

    /// Counts a failure.
    pub fn count_fault(&mut self)
        ensures counted { self.new ≡ record self.old { faults = next_count self.old.faults } }
        ensures later { self.old.faults ≤ self.new.faults }
    {
        self.faults = self.faults.saturating_add(1);
    }
}
