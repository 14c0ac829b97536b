ghost use Rattle.std.specs.Prelude.{◌≡◌, ◌==◌, ◌≤◌, ◌<◌, [], false, if◌then◌else◌, length, IfOk, OnErr, Ok};
ghost use Rattle.std.specs.Io.KnownBytes.{WriteAppends};
ghost use Rattle.pam_outside.specs.Counts.{Rose, next_count};

use crate::counted::Counted;
use pam_base::Failed;
use pam_outside::Sink;
use std::io::Write;

/// A sink on any writer, such as standard output. Only its failures are modelled.
pub type WriterSink<W> = Counted<W>;

impl<W: Write + Drop> Sink for Counted<W> {
    ghost sink_tells = { λ s. false };

    // never modelled
    ghost sink_holds = { λ s. record { written = []; calls = 0 } };

    ghost sink_faults = { λ s. s.faults };

    /// Passes the piece to the writer. Each error of the writer is Failed and counts as a failure, as the result 0
    /// does, and nothing else does.
    fn write(&mut self, piece: &[u8]) -> Result<usize, Failed>
        requires { 0 < length piece.now }
        ensures bound { IfOk result (λ n. n ≤ length piece.now) }
        ensures faults { self.old.faults ≤ self.new.faults }
        ensures failed { OnErr result (Rose self.old.faults self.new.faults) }
        ensures nothing { result ≡ Ok 0 → Rose self.old.faults self.new.faults }
        ensures no_fault { IfOk result (λ n. 0 < n → self.new.faults ≡ self.old.faults) }
        ensures given { WriteAppends (W.contents self.old.inner)
            (W.contents self.new.inner) result piece.now }
        ensures counted { IfOk result
            (λ n. self.new.faults ≡
            (if n == 0 then next_count self.old.faults else self.old.faults)) }
        ensures fault { OnErr result (self.new.faults ≡ next_count self.old.faults) }
    {
        match self.inner.write(piece) {
            Ok(n) => {
                if n == 0 {
                    self.faults = self.faults.saturating_add(1);
                }
                Ok(n)
            }
            Err(_) => {
                self.faults = self.faults.saturating_add(1);
                Err(Failed)
            }
        }
    }
}
