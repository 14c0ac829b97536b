ghost use Rattle.std.specs.Prelude.{◌≡◌, ◌<◌, ◌≤◌, IsTrue, length, min, take, drop, ◌++◌, IfOk, OnOk, OnErr, IsErr, ◌↔◌};
ghost use Rattle.pam_outside.specs.Counts.{next_count, next_at_end, fails_next, Rose};
ghost use Rattle.pam_outside.specs.Memory.{source_state};
ghost use Rattle.pam_outside.specs.Streams.{Reads};

use crate::calls::Calls;
use crate::source::Source;
use pam_base::{Failed, Numbers, Text};
use std::marker::Model;

/// A source of bytes in memory, with planned failures. It is modelled.
#[derive(Drop)]
pub struct MemSource {
    bytes: Text,
    at: usize,
    reads_at_end: u64,
    calls: Calls,
}

impl Model for MemSource {
    ghost use Rattle.std.specs.Prelude.{◌≤◌, length, drop};
    ghost use Rattle.pam_outside.specs.Memory.{SourceMemory};

    ghost Value = { SourceMemory };

    ghost view = { λ s. record {
      left = drop s.at s.bytes;
      calls = s.calls.made;
      reads_at_end = s.reads_at_end;
      faults = s.calls.faults;
      fails = s.calls.fails;
    } };

    ghost invariant = { λ s. s.at ≤ length s.bytes };
}

impl MemSource {
    /// A source of these bytes. `fails` has the numbers, from 1, of the reads planned to fail.
    pub fn new(bytes: Text, fails: Numbers) -> MemSource
        ensures { result ≡ record {
          left = bytes;
          calls = 0;
          reads_at_end = 0;
          faults = 0;
          fails = fails;
        } }
    {
        MemSource {
            bytes,
            at: 0,
            reads_at_end: 0,
            calls: Calls::new(fails),
        }
    }
}

// A count of reads at the end, after one more with n bytes left.
fn next_at_end(count: u64, left: usize) -> u64
    ensures { result ≡ next_at_end count left }
{
    if left == 0 {
        count.saturating_add(1)
    } else {
        count
    }
}

impl Source for MemSource {
    ghost use Rattle.std.specs.Prelude.{true};

    ghost source_tells = { λ s. true };

    ghost source_holds = { source_state };

    ghost source_faults = { λ s. s.faults };

    /// Fails exactly at the reads with the given numbers, and otherwise takes as many bytes as the buffer and the rest
    /// allow. A failed read counts one failure, and no other does.
    fn read(&mut self, into: &mut [u8]) -> Result<usize, Failed>
        requires { 0 < length into.old }
        ensures bound { IfOk result (λ n. n ≤ length into.new) }
        ensures told { Reads result into.new (source_state self.old) (source_state self.new) }
        ensures faults { self.old.faults ≤ self.new.faults }
        ensures failed { OnErr result (Rose self.old.faults self.new.faults) }
        ensures no_fault { OnOk result (self.new.faults ≡ self.old.faults) }
        ensures fails_exactly { IsErr result ↔ IsTrue (fails_next self.old.calls self.old.fails) }
        ensures amount { IfOk result (λ n. n ≡ min (length into.old) (length self.old.left)) }
        ensures buffer { IfOk result (λ n. into.new ≡ take n self.old.left ++ drop n into.old) }
        ensures taken { IfOk result
            (λ n. self.new ≡ record self.old {
              left = drop n self.old.left;
              calls = next_count self.old.calls;
              reads_at_end = next_at_end self.old.reads_at_end (length self.old.left);
            }) }
        ensures fault { OnErr result
            (self.new ≡ record self.old {
              calls = next_count self.old.calls;
              reads_at_end = next_at_end self.old.reads_at_end (length self.old.left);
              faults = next_count self.old.faults;
            }) }
        ensures buffer_stays { OnErr result (into.new ≡ into.old) }
    {
        let rest = &self.bytes.bytes()[self.at..];
        self.reads_at_end = next_at_end(self.reads_at_end, rest.len());
        if self.calls.next_fails() {
            self.calls.count_fault();
            return Err(Failed);
        }
        let n = rest.len().min(into.len());
        into[..n].copy_from_slice(&rest[..n]);
        self.at += n;
        Ok(n)
    }
}
