ghost use Rattle.std.specs.Prelude.{◌≡◌, ◌<◌, ◌≤◌, ℕ, Bool, length, IsTrue, IfOk, OnOk, OnErr};
ghost use Rattle.pam_outside.specs.Counts.{Rose};
ghost use Rattle.pam_outside.specs.Streams.{SourceState, Reads};

use pam_base::Failed;

/// Where bytes come from, such as standard input.
pub trait Source {
    /// Whether contracts know its content: it is modelled. This never changes.
    ghost source_tells: { Self → Bool };

    /// The bytes that are left, how often it was read, and how often of these at its end, if it is modelled.
    ghost source_holds: { Self → SourceState };

    /// How often it has failed. The count never falls, and stops at 2^64 - 1.
    ghost source_faults: { Self → ℕ };

    /// Takes the next bytes into the beginning of the buffer and returns how many, at most the buffer's length. 0 is
    /// returned exactly at the end. Failed takes none, and is returned only if the count of failures rose; the count
    /// rises with no other result.
    fn read(&mut self, into: &mut [u8]) -> Result<usize, Failed>
        requires { 0 < length into.old }
        ensures bound { IfOk result (λ n. n ≤ length into.new) }
        ensures tells { source_tells self.new ≡ source_tells self.old }
        ensures told { IsTrue (source_tells self.old) →
            Reads result into.new (source_holds self.old) (source_holds self.new) }
        ensures faults { source_faults self.old ≤ source_faults self.new }
        ensures failed { OnErr result (Rose (source_faults self.old) (source_faults self.new)) }
        ensures no_fault { OnOk result (source_faults self.new ≡ source_faults self.old) };
}
