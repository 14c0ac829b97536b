ghost use Rattle.std.specs.Prelude.{[], ◌∷◌, IfOk, MatchOption};
ghost use Rattle.std.specs.Io.KnownBytes.{Consumes, IsAtEnd};

use pam_base::Failed;
use std::io::Read;

/// Reads one byte and no further: the next byte, or None at the end of input. Failed is returned if
/// the reader fails.
pub fn next_byte<R: Read>(reader: &mut R) -> Result<Option<u8>, Failed>
    ensures { IfOk result (λ byte. MatchOption byte
        (Consumes (R.remaining reader.old) (R.remaining reader.new) []
        × IsAtEnd (R.remaining reader.new))
        (λ b. Consumes (R.remaining reader.old) (R.remaining reader.new) (b ∷ []))) }
{
    let mut byte = [0u8; 1];
    match reader.read(&mut byte) {
        Ok(0) => Ok(None),
        Ok(_) => Ok(Some(byte[0])),
        Err(_) => Err(Failed),
    }
}
