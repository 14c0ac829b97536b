ghost use Rattle.std.specs.Prelude.{◌≡◌};

use std::marker::Model;

/// A reader or a writer, and the number of its failures so far. What it reads or writes isn't modelled.
#[derive(Drop)]
pub struct Counted<T: Drop> {
    pub(crate) inner: T,
    pub(crate) faults: u64,
}

impl<T: Drop> Model for Counted<T> {
    ghost use Rattle.system_objects.specs.Adapter.{Adapter};

    ghost Value = { Adapter T };

    ghost view = { λ c. record { inner = c.inner; faults = c.faults } };
}

impl<T: Drop> Counted<T> {
    /// A reader or writer that hasn't failed yet.
    pub fn new(inner: T) -> Self
        ensures { result ≡ record { inner = inner; faults = 0 } }
    {
        Counted { inner, faults: 0 }
    }
}
