ghost use Rattle.std.specs.Prelude.{◌≡◌, ◌<◌, ◌≤◌, ℕ, Bool, length, IsTrue, IfOk, OnErr, Ok};
ghost use Rattle.pam_outside.specs.Counts.{Rose};
ghost use Rattle.pam_outside.specs.Streams.{SinkState, Writes};

use pam_base::Failed;

/// Where bytes go, such as standard output.
pub trait Sink {
    /// Whether contracts know its content: it is modelled. This never changes.
    ghost sink_tells: { Self → Bool };

    /// The bytes that were written and how often it was called, if it is modelled.
    ghost sink_holds: { Self → SinkState };

    /// How often it has failed. The count never falls, and stops at 2^64 - 1.
    ghost sink_faults: { Self → ℕ };

    /// Writes a prefix of the piece and returns its length. Failed writes nothing. Failed, and the result 0, are
    /// returned only if the count of failures rose; the count rises with no other result.
    fn write(&mut self, piece: &[u8]) -> Result<usize, Failed>
        requires { 0 < length piece.now }
        ensures bound { IfOk result (λ n. n ≤ length piece.now) }
        ensures tells { sink_tells self.new ≡ sink_tells self.old }
        ensures told { IsTrue (sink_tells self.old) →
            Writes result piece.now (sink_holds self.old) (sink_holds self.new) }
        ensures faults { sink_faults self.old ≤ sink_faults self.new }
        ensures failed { OnErr result (Rose (sink_faults self.old) (sink_faults self.new)) }
        ensures nothing { result ≡ Ok 0 → Rose (sink_faults self.old) (sink_faults self.new) }
        ensures no_fault { IfOk result (λ n. 0 < n → sink_faults self.new ≡ sink_faults self.old) };
}
