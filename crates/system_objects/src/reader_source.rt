ghost use Rattle.std.specs.Prelude.{◌≡◌, ◌≤◌, ◌<◌, [], false, length, IfOk, OnOk, OnErr};
ghost use Rattle.std.specs.Io.KnownBytes.{ReadConsumes};
ghost use Rattle.pam_outside.specs.Counts.{Rose, next_count};

use crate::counted::Counted;
use pam_base::Failed;
use pam_outside::Source;
use std::io::Read;

/// A source on any reader, such as standard input. Only its failures are modelled.
pub type ReaderSource<R> = Counted<R>;

impl<R: Read + Drop> Source for Counted<R> {
    ghost source_tells = { λ s. false };

    // never modelled
    ghost source_holds = { λ s. record { left = []; calls = 0; reads_at_end = 0 } };

    ghost source_faults = { λ s. s.faults };

    /// Returns what the reader returns. Each error of the reader is Failed and counts as a failure, and nothing else
    /// does.
    fn read(&mut self, into: &mut [u8]) -> Result<usize, Failed>
        requires { 0 < length into.old }
        ensures bound { IfOk result (λ n. n ≤ length into.new) }
        ensures faults { self.old.faults ≤ self.new.faults }
        ensures failed { OnErr result (Rose self.old.faults self.new.faults) }
        ensures no_fault { OnOk result (self.new.faults ≡ self.old.faults) }
        ensures given { ReadConsumes (R.remaining self.old.inner)
            (R.remaining self.new.inner) result into.new }
        ensures fault { OnErr result (self.new.faults ≡ next_count self.old.faults) }
    {
        match self.inner.read(into) {
            Ok(n) => Ok(n),
            Err(_) => {
                self.faults = self.faults.saturating_add(1);
                Err(Failed)
            }
        }
    }
}
