ghost use Rattle.std.specs.Prelude.{◌≡◌, IsTrue, string_bytes};
ghost use Rattle.pam_outside.specs.Counts.{RisesIf};
ghost use Rattle.record_reader.specs.Turns.{has_write_fault};
ghost use Rattle.cmd_run.specs.Report.{WritesReport};

use crate::protocol::Protocol;
use pam_base::{Failed, NoMemory};
use pam_outside::{Sink, write_all};
use record_reader::Stop;
use std::alloc::Global;

/// Writes a report, in the form that its protocol has for it.
pub(crate) fn write_report<P: Protocol, K: Sink>(
    alloc: Global,
    report: String,
    sink: &mut K,
) -> Result<(), Stop>
    ensures sink_tells { K.sink_tells sink.new ≡ K.sink_tells sink.old }
    ensures told { IsTrue (K.sink_tells sink.old) → WritesReport result
        (P.wrapped (string_bytes report)) (K.sink_holds sink.old) (K.sink_holds sink.new) }
    ensures faults { RisesIf (has_write_fault result) (K.sink_faults sink.old)
        (K.sink_faults sink.new) }
{
    let text = match P::wrap(alloc, report) {
        Ok(text) => text,
        Err(NoMemory) => return Err(Stop::NoMemory),
    };
    match write_all(sink, text.bytes()) {
        Ok(()) => Ok(()),
        Err(Failed) => Err(Stop::WriteFault),
    }
}
