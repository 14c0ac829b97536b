ghost use Rattle.std.specs.Prelude.{◌≡◌, ◌≢◌, ◌⊎◌, [], Ok, Err, Some, None, IfOk, IsTrue};
ghost use Rattle.pam_outside.specs.Counts.{RisesIf};
ghost use Rattle.session_audit.specs.service_load.specs.Load.{loaded};
ghost use Rattle.session_audit.specs.service_load.specs.Loading.{OnlyCalls};
ghost use Rattle.record_reader.specs.Turns.{has_write_fault};
ghost use Rattle.record_reader.specs.Written.{WritesText};
ghost use Rattle.cmd_audit.specs.Audit.{Audit, Audits, IsAudit, ReadsUpTo, audit_of, calls_of, has_read_fault};
ghost use Rattle.cmd_audit.specs.Transcript.{Takes};

use crate::finding::{Audited, Finding, find};
use pam_outside::{Sink, Source, Vault, write_all};
use record_reader::Stop;
use std::alloc::Global;

/// Audits the transcript of a run, which is read from a source, against the stacks of a service
/// under a root, and writes the verdict on one line.
///
/// The service is loaded first. If its configuration is refused, the line of its first fault is
/// written, and the source isn't read. If there is a verdict, the transcript was read to its end;
/// if it is too long, 1,048,577 bytes of it were read; if the source fails, nothing is written.
/// There is at most one read more than bytes were taken, and at most one write more than bytes were
/// written. Of the world only the counts of `Vault` change. The text is complete before the first
/// byte is written.
pub fn audit_transcript<S: Source, K: Sink>(
    alloc: Global,
    root: &[u8],
    service: &[u8],
    source: &mut S,
    out: &mut K,
    vault: &mut dyn Vault,
) -> Result<Audited, Stop>
    ensures source_tells { S.source_tells source.new ≡ S.source_tells source.old }
    ensures sink_tells { K.sink_tells out.new ≡ K.sink_tells out.old }
    ensures vault_tells { vault_tells vault.new ≡ vault_tells vault.old }
    // The result is the audit of the transcript, or of one that couldn't be read; `unread` says
    // when.
    ensures told { IsTrue (K.sink_tells out.old) → IsTrue (vault_tells vault.old) →
        IsTrue (S.source_tells source.old) →
        Audits result (audit_of (vault_holds vault.old) root.now service.now
        (Some (S.source_holds source.old).left)) (K.sink_holds out.old) (K.sink_holds out.new)
        ⊎ Audits result (audit_of (vault_holds vault.old) root.now service.now None)
        (K.sink_holds out.old) (K.sink_holds out.new) }
    // If an allocation fails, `Vault` may have been called less often.
    ensures asked { IsTrue (vault_tells vault.old) → result ≢ Err Stop.NoMemory →
        (vault_holds vault.new).calls
        ≡ calls_of (loaded (vault_holds vault.old) root.now service.now) }
    ensures stays { IsTrue (vault_tells vault.old) →
        OnlyCalls (vault_holds vault.old) (vault_holds vault.new) }
    ensures takes { IsTrue (S.source_tells source.old) →
        Takes (S.source_holds source.old) (S.source_holds source.new) }
    ensures reads_up_to { IsTrue (S.source_tells source.old) → IfOk result (λ found.
        ReadsUpTo found (S.source_holds source.old).left (S.source_holds source.new).left) }
    ensures refused { result ≡ Ok Audited.Refused → source.new ≡ source.old }
    // What was written, if the sink alone is modelled.
    ensures writes { IsTrue (K.sink_tells out.old) →
        WritesText (K.sink_holds out.old) (K.sink_holds out.new) }
    // The causes, with real objects too.
    ensures unread { RisesIf (has_read_fault result) (S.source_faults source.old)
        (S.source_faults source.new) }
    ensures faults { RisesIf (has_write_fault result) (K.sink_faults out.old)
        (K.sink_faults out.new) }
{
    let finding = find(alloc, root, service, source, vault)?;
    write_finding(&finding, out)
}

// Writes what was found. If the transcript couldn't be read, there is nothing to write.
fn write_finding<K: Sink>(finding: &Finding, out: &mut K) -> Result<Audited, Stop>
    requires silent { finding.now.audited ≡ Audited.Unread → finding.now.text ≡ [] }
    ensures tells { K.sink_tells out.new ≡ K.sink_tells out.old }
    ensures told { IsTrue (K.sink_tells out.old) → (a : Audit) → IsAudit finding.now a →
        Audits result a (K.sink_holds out.old) (K.sink_holds out.new) }
    ensures writes { IsTrue (K.sink_tells out.old) →
        WritesText (K.sink_holds out.old) (K.sink_holds out.new) }
    ensures found { IfOk result (λ found. found ≡ finding.now.audited) }
    ensures memory { result ≢ Err Stop.NoMemory }
    ensures unread { finding.now.audited ≡ Audited.Unread → result ≡ Ok Audited.Unread }
    ensures faults { RisesIf (has_write_fault result) (K.sink_faults out.old)
        (K.sink_faults out.new) }
{
    if finding.audited == Audited::Unread {
        return Ok(Audited::Unread);
    }
    write_all(out, finding.text.bytes())?;
    Ok(finding.audited)
}
