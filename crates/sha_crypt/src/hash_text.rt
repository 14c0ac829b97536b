ghost use Rattle.std.specs.Prelude.{◌≡◌, ◌+◌, ◌<◌, ◌≤◌, [], ◌∷◌, ◌++◌, length};

use arrayvec::ArrayVec;
use std::marker::Model;

/// The text of a hash. It lies in the value itself, so a hash takes no memory that could run out:
/// whether a password is right can't get lost in a failed allocation. Contracts see the bytes.
#[derive(Drop)]
pub struct HashText {
    text: ArrayVec<u8, 160>,
}

impl Model for HashText {
    ghost use Rattle.std.specs.Prelude.{ℕ, List};

    ghost Value = { List ℕ };

    ghost view = { λ t. t.text.items };
}

impl HashText {
    /// An empty text.
    pub(crate) fn new() -> Self
        ensures { result ≡ [] }
    {
        HashText {
            text: ArrayVec::new(),
        }
    }

    /// Adds a byte at the end.
    pub(crate) fn push(&mut self, byte: u8)
        requires { length self.old < 160 }
        ensures added { self.new ≡ self.old ++ byte ∷ [] }
        ensures len { length self.new ≡ length self.old + 1 }
    {
        self.text.push(byte);
    }

    /// Adds bytes at the end.
    pub(crate) fn extend(&mut self, bytes: &[u8])
        requires { length self.old + length bytes.now ≤ 160 }
        ensures added { self.new ≡ self.old ++ bytes.now }
        ensures len { length self.new ≡ length self.old + length bytes.now }
    {
        match self.text.try_extend_from_slice(bytes) {
            Ok(()) => (),
            Err(_) => unreachable!(),
        }
    }

    /// The bytes.
    pub fn bytes(&self) -> &[u8]
        ensures { result.now ≡ self.now }
    {
        self.text.as_slice()
    }
}
