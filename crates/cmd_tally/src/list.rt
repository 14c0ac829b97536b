ghost use Rattle.std.specs.Prelude.{◌≡◌, ◌≢◌, ◌⊎◌, ◌≤◌, IsTrue, IfOk, Ok, Err};
ghost use Rattle.pam_outside.specs.Counts.{RisesIf, Rose};
ghost use Rattle.pam_outside.specs.Files.{counted};
ghost use Rattle.record_reader.specs.Turns.{has_write_fault};
ghost use Rattle.record_reader.specs.Written.{WritesText};
ghost use Rattle.cmd_tally.specs.Tally.{Lists, tally_of};

use crate::finding::{Tallied, find};
use pam_outside::{Sink, Vault, write_all};
use record_reader::Stop;
use std::alloc::Global;

/// Lists the failures in the file of a user under a root, `/var/run/faillock/USER`: each in the
/// form of the file, and then their number; or writes that the file is damaged or can't be read. A
/// file that doesn't exist has none. Of the world only the counts of `Vault` change: it is called
/// once. The text is complete before its first byte is written.
pub fn list_failures<K: Sink>(
    alloc: Global,
    root: &[u8],
    user: &[u8],
    out: &mut K,
    vault: &mut dyn Vault,
) -> Result<Tallied, Stop>
    ensures sink_tells { K.sink_tells out.new ≡ K.sink_tells out.old }
    ensures vault_tells { vault_tells vault.new ≡ vault_tells vault.old }
    ensures told { IsTrue (K.sink_tells out.old) → IsTrue (vault_tells vault.old) →
        Lists result (tally_of (vault_holds vault.old) root.now user.now) (K.sink_holds out.old)
        (K.sink_holds out.new) }
    // What was found, if the files are modelled, whatever becomes of the text; and what was
    // written, if the output is.
    ensures found { IsTrue (vault_tells vault.old) → IfOk result (λ tallied.
        tallied ≡ (tally_of (vault_holds vault.old) root.now user.now).tallied) }
    ensures writes { IsTrue (K.sink_tells out.old) →
        WritesText (K.sink_holds out.old) (K.sink_holds out.new) }
    // One call of `Vault`, or none if the memory for its path can't be allocated.
    ensures one_call { IsTrue (vault_tells vault.old) →
        (vault_holds vault.new ≡ counted (vault_holds vault.old)) ⊎ ((result ≡ Err Stop.NoMemory)
        × (vault_holds vault.new ≡ vault_holds vault.old)) }
    // The causes, with real objects too: Unread is returned only if `Vault` failed; otherwise
    // `Vault` failed only if the line that says so couldn't be written.
    ensures unread { result ≡ Ok Tallied.Unread →
        Rose (vault_faults vault.old) (vault_faults vault.new) }
    ensures read { (result ≡ Ok Tallied.Listed) ⊎ (result ≡ Ok Tallied.Damaged) →
        vault_faults vault.new ≡ vault_faults vault.old }
    ensures faults { RisesIf (has_write_fault result) (K.sink_faults out.old)
        (K.sink_faults out.new) }
{
    let finding = find(alloc, root, user, vault)?;
    write_all(out, finding.text.bytes())?;
    Ok(finding.tallied)
}
