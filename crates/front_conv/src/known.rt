ghost use Rattle.std.specs.Prelude.{◌≡◌, ◌∷◌, []};

use crate::front_end::FrontEnd;
use pam_base::{Failed, Text};
use std::marker::Model;

/// A front end in memory, that sends these bytes and no more. It is modelled: nothing fails. What is sent to it isn't kept.
#[derive(Drop)]
pub struct KnownFront {
    bytes: Text,
    place: usize,
}

impl Model for KnownFront {
    ghost use Rattle.std.specs.Prelude.{◌≤◌, ℕ, List, drop, length};

    ghost Value = { List ℕ };

    ghost view = { λ k. drop k.place k.bytes };

    ghost invariant = { λ k. k.place ≤ length k.bytes };
}

impl KnownFront {
    pub fn new(bytes: Text) -> Self
        ensures { result ≡ bytes }
    {
        KnownFront { bytes, place: 0 }
    }
}

impl FrontEnd for KnownFront {
    ghost use Rattle.std.specs.Prelude.{true, Some, None};

    ghost front_tells = { λ k. true };

    ghost incoming = { λ k. Some k };

    ghost outgoing = { λ k. None };

    fn next_byte(&mut self) -> Result<Option<u8>, Failed> {
        let bytes = self.bytes.bytes();
        if self.place < bytes.len() {
            let byte = bytes[self.place];
            self.place += 1;
            Ok(Some(byte))
        } else {
            Ok(None)
        }
    }

    fn send(&mut self, _bytes: &[u8]) -> Result<(), Failed> {
        Ok(())
    }
}
