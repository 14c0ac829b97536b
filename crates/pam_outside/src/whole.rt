ghost use Rattle.std.specs.Prelude.{◌≡◌, ◌≤◌, IsTrue, OnOk, OnErr};
ghost use Rattle.pam_outside.specs.Counts.{Rose};
ghost use Rattle.pam_outside.specs.Streams.{WritesWhole};

use crate::sink::Sink;
use pam_base::Failed;

/// Writes all of the text, in as many calls as needed, each for at least one byte. Failed is returned only if the count
/// of failures rose; then a prefix of the text is written, and no write follows. If all is written, the count is as
/// before. An empty text makes no call.
pub fn write_all<K: Sink>(sink: &mut K, text: &[u8]) -> Result<(), Failed>
    ensures tells { K.sink_tells sink.new ≡ K.sink_tells sink.old }
    ensures told { IsTrue (K.sink_tells sink.old) →
        WritesWhole result text.now (K.sink_holds sink.old) (K.sink_holds sink.new) }
    ensures faults { K.sink_faults sink.old ≤ K.sink_faults sink.new }
    ensures failed { OnErr result (Rose (K.sink_faults sink.old) (K.sink_faults sink.new)) }
    ensures no_fault { OnOk result (K.sink_faults sink.new ≡ K.sink_faults sink.old) }
{
    let mut rest = text;
    while !rest.is_empty() {
        let n = sink.write(rest)?;
        if n == 0 {
            return Err(Failed);
        }
        rest = &rest[n..];
    }
    Ok(())
}
