ghost use Rattle.std.specs.Prelude.{◌≡◌};
ghost use Rattle.pam_room.specs.Module.{length_note, receipt_by};

use data_cleanup::{Datum, Receipt};

/// The cleanup of most modules: there is nothing to do, and the result is the payload's length,
/// modulo 2^32.
pub fn spend_by_length(datum: Datum, status: u32) -> Receipt
    ensures { result ≡ receipt_by length_note datum status }
{
    let note = (datum.payload().len() % 0x1_0000_0000) as u32;
    datum.spend(status, note)
}
