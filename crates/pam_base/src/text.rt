ghost use Rattle.std.specs.Prelude.{◌≡◌, ◌==◌, ◌<◌, [], ◌∷◌, ◌++◌, length, replicate, slice_get, Some, OnOk, OnErr, IfOk};

use crate::fault::NoMemory;
use std::alloc::Global;
use std::marker::Model;

/// Bytes. They may be a password, so they are overwritten before their memory is freed. Contracts
/// see the list of bytes.
#[derive(Debug)]
pub struct Text {
    vec: Vec<u8>,
}

impl Model for Text {
    ghost use Rattle.std.specs.Prelude.{ℕ, List};

    ghost Value = { List ℕ };

    ghost view = { λ t. t.vec.items };
}

impl Drop for Text {
    fn drop(self) {
        let Text { vec: mut bytes } = self;
        wipe(&mut bytes);
    }
}

/// Overwrites the bytes.
pub fn wipe(bytes: &mut [u8])
    ensures { bytes.new ≡ replicate (length bytes.old) 0 }
{
    bytes.fill(0);
}

impl Text {
    /// An empty text. Allocates nothing before the first `push`.
    pub fn new(alloc: Global) -> Self
        ensures { result ≡ [] }
    {
        Text {
            vec: Vec::new(alloc),
        }
    }

    /// A copy of the bytes.
    pub fn from_bytes(alloc: Global, bytes: &[u8]) -> Result<Self, NoMemory>
        ensures { IfOk result (λ text. text ≡ bytes.now) }
    {
        Ok(Text {
            vec: Vec::from_slice(alloc, bytes)?,
        })
    }

    /// Allocates nothing.
    pub fn from_vec(vec: Vec<u8>) -> Self
        ensures { result ≡ vec.items }
    {
        Text { vec }
    }

    /// Adds a byte at the end. If it runs out of memory, the text stays as it was.
    pub fn push(&mut self, byte: u8) -> Result<(), NoMemory>
        ensures ok { OnOk result (self.new ≡ self.old ++ byte ∷ []) }
        ensures err { OnErr result (self.new ≡ self.old) }
    {
        if self.vec.len() == self.vec.capacity() {
            self.grow()?;
        }
        self.vec.push(byte)?;
        Ok(())
    }

    // Moves the bytes to memory with room for more. A push that moved them would free the old memory without
    // overwriting it.
    fn grow(&mut self) -> Result<(), NoMemory>
        ensures { self.new ≡ self.old }
    {
        let room = self.vec.len().saturating_mul(2).max(16);
        let mut larger = Vec::with_capacity(*self.vec.allocator(), room)?;
        larger.extend_from_slice(&self.vec)?;
        wipe(&mut self.vec);
        self.vec = larger;
        Ok(())
    }

    pub fn len(&self) -> usize
        ensures { result ≡ length self.now }
    {
        self.vec.len()
    }

    pub fn is_empty(&self) -> bool
        ensures { result ≡ (length self.now == 0) }
    {
        self.vec.is_empty()
    }

    /// The byte at index i, from 0.
    pub fn at(&self, i: usize) -> &u8
        requires { i < length self.now }
        ensures { slice_get self.now i ≡ Some result.now }
    {
        &self.vec[i]
    }

    pub fn bytes(&self) -> &[u8]
        ensures { result.now ≡ self.now }
    {
        &self.vec
    }
}
