ghost use Rattle.std.specs.Prelude.{◌≡◌, Bool, IsTrue};
ghost use Rattle.pam_outside.specs.Time.{NapState, rested};

/// How the program sleeps.
pub trait Nap: Drop {
    /// Whether contracts know its content: it is modelled. This never changes.
    ghost nap_tells: { Self → Bool };

    /// How often it waited, and the sum of the waits in microseconds, if it is modelled.
    ghost nap_holds: { Self → NapState };

    /// Waits n microseconds. It can't fail, and allocates nothing.
    fn rest(&mut self, micros: u32)
        ensures tells { nap_tells self.new ≡ nap_tells self.old }
        ensures told { IsTrue (nap_tells self.old) →
            nap_holds self.new ≡ rested (nap_holds self.old) micros };
}

/// `Nap::rest` of a borrowed sleep.
pub fn rest(nap: &mut dyn Nap, micros: u32)
    ensures tells { nap_tells nap.new ≡ nap_tells nap.old }
    ensures told { IsTrue (nap_tells nap.old) →
        nap_holds nap.new ≡ rested (nap_holds nap.old) micros }
{
    nap.rest(micros)
}
