ghost use Rattle.std.specs.Prelude.{◌≡◌, IfOk, OnErr};

use std::io;

/// The exit status if a program couldn't be called, since an allocation failed.
pub const NO_MEMORY: u8 = 4;

/// The status that a program returned, or [`NO_MEMORY`] if it couldn't be called.
pub fn exit_status(returned: io::Result<u8>) -> u8
    ensures answered { IfOk returned (λ status. result ≡ status) }
    ensures not_called { OnErr returned (result ≡ NO_MEMORY) }
{
    match returned {
        Ok(status) => status,
        Err(_) => NO_MEMORY,
    }
}
