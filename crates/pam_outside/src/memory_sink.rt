ghost use Rattle.std.specs.Prelude.{◌≡◌, ◌<◌, ◌≤◌, ◌-◌, [], length, ◌++◌, IfOk, OnErr, OnOk, IsErr, ◌↔◌, IsTrue, ◌||◌, Ok, nat_lt};
ghost use Rattle.pam_outside.specs.Counts.{next_count, fails_next, Rose};
ghost use Rattle.pam_outside.specs.Memory.{sink_state};
ghost use Rattle.pam_outside.specs.Streams.{Writes};

use crate::calls::Calls;
use crate::sink::Sink;
use pam_base::{Failed, NoMemory, Numbers};
use std::alloc::Global;
use std::marker::Model;

/// A sink into memory of a fixed size, with planned failures. It is modelled.
#[derive(Drop)]
pub struct MemSink {
    bytes: Vec<u8>,
    room: usize,
    calls: Calls,
}

impl Model for MemSink {
    ghost use Rattle.std.specs.Prelude.{◌≤◌, ◌+◌, vec_len, vec_capacity};
    ghost use Rattle.pam_outside.specs.Memory.{SinkMemory};

    ghost Value = { SinkMemory };

    ghost view = { λ s. record {
      written = s.bytes.items;
      room = s.room;
      calls = s.calls.made;
      faults = s.calls.faults;
      fails = s.calls.fails;
    } };

    ghost invariant = { λ s. vec_len s.bytes + s.room ≤ vec_capacity s.bytes };
}

impl MemSink {
    /// An empty sink with room for n bytes, all of which is allocated here. `fails` has the
    /// numbers, from 1, of the writes planned to fail.
    pub fn new(alloc: Global, room: usize, fails: Numbers) -> Result<MemSink, NoMemory>
        ensures { IfOk result
            (λ sink. sink ≡ record {
              written = [];
              room = room;
              calls = 0;
              faults = 0;
              fails = fails;
            }) }
    {
        Ok(MemSink {
            bytes: Vec::with_capacity(alloc, room)?,
            room,
            calls: Calls::new(fails),
        })
    }

    /// The bytes that were written, in order.
    pub fn bytes(&self) -> &[u8]
        ensures { result.now ≡ self.now.written }
    {
        &self.bytes
    }
}

impl Sink for MemSink {
    ghost use Rattle.std.specs.Prelude.{true};

    ghost sink_tells = { λ s. true };

    ghost sink_holds = { sink_state };

    ghost sink_faults = { λ s. s.faults };

    /// Fails exactly at the writes with the given numbers and if the piece is longer than the room left; otherwise
    /// takes the whole piece. A failed write counts one failure, and no other does. Allocates nothing.
    fn write(&mut self, piece: &[u8]) -> Result<usize, Failed>
        requires { 0 < length piece.now }
        ensures bound { IfOk result (λ n. n ≤ length piece.now) }
        ensures told { Writes result piece.now (sink_state self.old) (sink_state self.new) }
        ensures faults { self.old.faults ≤ self.new.faults }
        ensures failed { OnErr result (Rose self.old.faults self.new.faults) }
        ensures nothing { result ≡ Ok 0 → Rose self.old.faults self.new.faults }
        ensures no_fault { IfOk result (λ n. 0 < n → self.new.faults ≡ self.old.faults) }
        ensures fails_exactly { IsErr result ↔ IsTrue
            (fails_next self.old.calls self.old.fails || nat_lt self.old.room (length piece.now)) }
        ensures amount { IfOk result (λ n. n ≡ length piece.now) }
        ensures written { OnOk result
            (self.new ≡ record self.old {
              written = self.old.written ++ piece.now;
              room = self.old.room - length piece.now;
              calls = next_count self.old.calls;
            }) }
        ensures fault { OnErr result
            (self.new ≡ record self.old {
              calls = next_count self.old.calls;
              faults = next_count self.old.faults;
            }) }
    {
        if self.calls.next_fails() || self.room < piece.len() {
            self.calls.count_fault();
            return Err(Failed);
        }
        self.bytes.extend_from_slice(piece).unwrap();
        self.room -= piece.len();
        Ok(piece.len())
    }
}
