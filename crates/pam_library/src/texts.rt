ghost use Rattle.std.specs.Prelude.{◌≡◌, IfOk};
ghost use Rattle.std.specs.Option.{option_copied};

use pam_base::{NoMemory, Text};
use std::alloc::Global;

// The bytes of a text, if there is one.
pub(crate) fn bytes_of(text: &Option<Text>) -> Option<&[u8]>
    ensures { option_copied result ≡ text.now }
{
    match text {
        Some(text) => Some(text.bytes()),
        None => None,
    }
}

// A copy of some bytes, if there are any.
pub(crate) fn copy_of(alloc: Global, bytes: Option<&[u8]>) -> Result<Option<Text>, NoMemory>
    ensures { IfOk result (λ text. text ≡ option_copied bytes.entry) }
{
    match bytes {
        Some(bytes) => Ok(Some(Text::from_bytes(alloc, bytes)?)),
        None => Ok(None),
    }
}
