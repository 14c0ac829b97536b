ghost use Rattle.std.specs.Prelude.{◌≡◌, ◌≢◌, ◌⊎◌, IsTrue};
ghost use Rattle.pam_outside.specs.Counts.{Rose};
ghost use Rattle.cmd_all.specs.declared.exit.Exit.TheVariants as exits;
ghost use Rattle.cmd_all.specs.Exit.{exit_status};
ghost use Rattle.cmd_all.specs.Status.{WritesUsage};

use crate::exit::Exit;
use pam_base::Failed;
use pam_outside::{Sink, write_all};

const USAGE: &str =
    "usage: pamsess run ROOT | check ROOT SERVICE | login ROOT SERVICE [USER] | generate SEED LINES | tally ROOT USER | audit ROOT SERVICE | wire ROOT\n";

/// Writes the usage line. Returns how that ended.
pub(crate) fn write_usage<K: Sink>(out: &mut K) -> Exit
    ensures told { IsTrue (K.sink_tells out.old) →
        WritesUsage (exit_status result) (K.sink_holds out.old) (K.sink_holds out.new) }
    ensures status { (exit_status result ≡ exit_status exits.Usage)
        ⊎ (exit_status result ≡ exit_status exits.WriteFault) }
    ensures tells { K.sink_tells out.new ≡ K.sink_tells out.old }
    ensures write_fault { exit_status result ≡ exit_status exits.WriteFault →
        Rose (K.sink_faults out.old) (K.sink_faults out.new) }
    ensures no_write_fault { exit_status result ≢ exit_status exits.WriteFault →
        K.sink_faults out.new ≡ K.sink_faults out.old }
{
    match write_all(out, USAGE.as_bytes()) {
        Ok(()) => Exit::Usage,
        Err(Failed) => Exit::WriteFault,
    }
}
