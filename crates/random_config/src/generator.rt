ghost use Rattle.std.specs.Prelude.{◌≡◌, ◌/◌};
ghost use Rattle.random_config.specs.Generator.{next_state};

/// The state of a generator of random numbers: a linear congruential one modulo 2^32.
#[derive(Drop)]
pub(crate) struct Generator {
    pub(crate) state: u32,
}

impl Generator {
    /// The next random number: the upper half of the next state.
    pub(crate) fn random_number(&mut self) -> u32
        ensures state { self.new.state ≡ next_state self.old.state }
        ensures random_number { result ≡ next_state self.old.state / 65536 }
    {
        self.state = self.state.wrapping_mul(1_103_515_245).wrapping_add(12_345);
        self.state / 65536
    }
}
