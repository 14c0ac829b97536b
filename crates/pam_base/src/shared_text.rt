ghost use Rattle.std.specs.Prelude.{◌≡◌, [], IfOk};

use crate::fault::NoMemory;
use crate::text::Text;
use std::alloc::Global;
use std::marker::Model;
use std::rc::Rc;

/// Bytes with one or more owners, in one thread. They are freed with their last owner. Contracts see the list of bytes.
#[derive(Debug, Drop)]
pub struct SharedText {
    // None means an empty text, which needs no memory.
    shared: Option<Rc<Text>>,
}

impl Model for SharedText {
    ghost use Rattle.std.specs.Prelude.{ℕ, List, [], option_map, unwrap_or};

    ghost Value = { List ℕ };

    ghost view = { λ s. unwrap_or (option_map (λ rc. rc.value) s.shared) [] };
}

impl SharedText {
    /// An empty text. Allocates nothing.
    pub fn new() -> Self
        ensures { result ≡ [] }
    {
        SharedText { shared: None }
    }

    /// A copy of the bytes.
    pub fn from_bytes(alloc: Global, bytes: &[u8]) -> Result<Self, NoMemory>
        ensures { IfOk result (λ text. text ≡ bytes.now) }
    {
        let text = Text::from_bytes(alloc, bytes)?;
        Ok(SharedText {
            shared: Some(Rc::new(alloc, text)?),
        })
    }

    /// One more owner of the same bytes. Allocates nothing, and returns `NoMemory` only if they have 2^64 - 1 owners.
    pub fn share(&self) -> Result<Self, NoMemory>
        ensures { IfOk result (λ text. text ≡ self.now) }
    {
        match &self.shared {
            Some(text) => Ok(SharedText {
                shared: Some(text.clone()?),
            }),
            None => Ok(SharedText::new()),
        }
    }

    pub fn bytes(&self) -> &[u8]
        ensures { result.now ≡ self.now }
    {
        match &self.shared {
            Some(text) => text.bytes(),
            None => &[],
        }
    }
}
