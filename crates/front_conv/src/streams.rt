ghost use Rattle.std.specs.Prelude.{◌≡◌, ◌∷◌, []};

use crate::front_end::FrontEnd;
use conv_port::next_byte;
use pam_base::Failed;
use std::io::{Read, Write};

/// A front end at the other end of two streams, such as standard input and output. They may fail.
#[derive(Drop)]
pub struct Streams<R: Read + Drop, W: Write + Drop> {
    pub reader: R,
    pub writer: W,
}

impl<R: Read + Drop, W: Write + Drop> FrontEnd for Streams<R, W> {
    ghost use Rattle.std.specs.Prelude.{false};

    ghost front_tells = { λ s. false };

    ghost incoming = { λ s. R.remaining s.reader };

    ghost outgoing = { λ s. W.contents s.writer };

    fn next_byte(&mut self) -> Result<Option<u8>, Failed> {
        next_byte(&mut self.reader)
    }

    fn send(&mut self, bytes: &[u8]) -> Result<(), Failed> {
        self.writer.write_all(bytes).map_err(|_| Failed)?;
        self.writer.flush().map_err(|_| Failed)
    }
}
