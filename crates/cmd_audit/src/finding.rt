ghost use Rattle.std.specs.Prelude.{◌≡◌, ◌≢◌, ◌≤◌, [], Some, false, IsTrue, IfOk, OnOk, OnErr, length};
ghost use Rattle.pam_outside.specs.Counts.{RisesIf};
ghost use Rattle.session_audit.specs.service_load.specs.Load.{AreBounded, loaded};
ghost use Rattle.session_audit.specs.service_load.specs.Loading.{OnlyCalls};
ghost use Rattle.session_audit.specs.pass_replay.specs.Retold.{stacks_in};
ghost use Rattle.session_audit.specs.Checked.{line_of};
ghost use Rattle.cmd_audit.specs.Audit.{IsAudit, IsAuditOf, IsVerdict, ReadsUpTo, audit_by, audit_of, calls_of, is_unread, judged, refused, too_long, unread};
ghost use Rattle.cmd_audit.specs.Transcript.{Takes};

use crate::transcript::{Transcript, read_transcript};
use pam_base::{NoMemory, Refuse, Text};
use pam_outside::{Source, Vault};
use session_audit::report_lines::write_refused;
use session_audit::service_load::{LoadFault, Trees, load};
use session_audit::{Verdict, audit};
use std::alloc::Global;

/// What an audit found.
#[derive(Clone, Copy, Debug, PartialEq, Eq)]
pub enum Audited {
    /// The transcript fits the service.
    Fits,
    /// The transcript doesn't fit.
    Differs,
    /// The service's configuration is refused.
    Refused,
    /// The transcript has more than 1,048,576 bytes.
    TooLong,
    /// The transcript couldn't be read.
    Unread,
}

// What was found, and the text that is written.
#[derive(Drop)]
pub(crate) struct Finding {
    pub(crate) audited: Audited,
    pub(crate) text: Text,
}

/// Loads a service and then reads a transcript, and audits it.
pub(crate) fn find<S: Source>(
    alloc: Global,
    root: &[u8],
    service: &[u8],
    source: &mut S,
    vault: &mut dyn Vault,
) -> Result<Finding, NoMemory>
    ensures source_tells { S.source_tells source.new ≡ S.source_tells source.old }
    ensures vault_tells { vault_tells vault.new ≡ vault_tells vault.old }
    ensures told { IsTrue (vault_tells vault.old) → IsTrue (S.source_tells source.old) →
        IfOk result (λ finding. IsAuditOf finding
        (audit_of (vault_holds vault.old) root.now service.now)
        (S.source_holds source.old).left) }
    ensures asked { IsTrue (vault_tells vault.old) → OnOk result ((vault_holds vault.new).calls
        ≡ calls_of (loaded (vault_holds vault.old) root.now service.now)) }
    ensures stays { IsTrue (vault_tells vault.old) →
        OnlyCalls (vault_holds vault.old) (vault_holds vault.new) }
    ensures takes { IsTrue (S.source_tells source.old) →
        Takes (S.source_holds source.old) (S.source_holds source.new) }
    ensures reads_up_to { IsTrue (S.source_tells source.old) → IfOk result (λ finding.
        ReadsUpTo finding.audited (S.source_holds source.old).left
        (S.source_holds source.new).left) }
    ensures refused { IfOk result (λ finding. finding.audited ≡ Audited.Refused →
        source.new ≡ source.old) }
    ensures unread { IfOk result (λ finding. RisesIf (is_unread finding.audited)
        (S.source_faults source.old) (S.source_faults source.new)) }
    ensures no_fault { OnErr result (S.source_faults source.new ≡ S.source_faults source.old) }
    ensures silent { IfOk result (λ finding. finding.audited ≡ Audited.Unread →
        finding.text ≡ []) }
{
    match load(alloc, vault, root, service) {
        Ok(trees) => find_by(alloc, &trees, source),
        Err(Refuse::Named(fault)) => refused(alloc, &fault),
        Err(Refuse::NoMemory) => Err(NoMemory),
    }
}

// Reads a transcript and audits it against the stacks of a service.
fn find_by<S: Source>(alloc: Global, trees: &Trees, source: &mut S) -> Result<Finding, NoMemory>
    requires bounded { AreBounded trees.now }
    ensures source_tells { S.source_tells source.new ≡ S.source_tells source.old }
    ensures told { IsTrue (S.source_tells source.old) → IfOk result (λ finding.
        IsAuditOf finding (audit_by (stacks_in trees.now)) (S.source_holds source.old).left) }
    ensures takes { IsTrue (S.source_tells source.old) →
        Takes (S.source_holds source.old) (S.source_holds source.new) }
    ensures reads_up_to { IsTrue (S.source_tells source.old) → IfOk result (λ finding.
        ReadsUpTo finding.audited (S.source_holds source.old).left
        (S.source_holds source.new).left) }
    ensures accepted { IfOk result (λ finding. finding.audited ≢ Audited.Refused) }
    ensures unread { IfOk result (λ finding. RisesIf (is_unread finding.audited)
        (S.source_faults source.old) (S.source_faults source.new)) }
    ensures no_fault { OnErr result (S.source_faults source.new ≡ S.source_faults source.old) }
    ensures silent { IfOk result (λ finding. finding.audited ≡ Audited.Unread →
        finding.text ≡ []) }
{
    match read_transcript(alloc, source)? {
        Transcript::Whole(text) => find_in(alloc, trees, text.bytes()),
        Transcript::TooLong => too_long(alloc),
        Transcript::Unread => Ok(unread(alloc)),
    }
}

// Audits a transcript against the stacks of a service.
fn find_in(alloc: Global, trees: &Trees, text: &[u8]) -> Result<Finding, NoMemory>
    requires bounded { AreBounded trees.now }
    requires short { length text.now ≤ 1048576 }
    ensures told { IfOk result (λ finding. IsAudit finding
        (audit_by (stacks_in trees.now) (Some text.now))) }
    ensures verdict { IfOk result (λ finding. IsVerdict finding.audited) }
    ensures accepted { IfOk result (λ finding. finding.audited ≢ Audited.Refused) }
    ensures read { IfOk result (λ finding. is_unread finding.audited ≡ false) }
{
    judged(alloc, audit(alloc, trees, text)?)
}

fn judged(alloc: Global, verdict: Verdict) -> Result<Finding, NoMemory>
    ensures told { IfOk result (λ finding. IsAudit finding (judged (line_of verdict))) }
    ensures verdict { IfOk result (λ finding. IsVerdict finding.audited) }
    ensures accepted { IfOk result (λ finding. finding.audited ≢ Audited.Refused) }
    ensures read { IfOk result (λ finding. is_unread finding.audited ≡ false) }
{
    match verdict {
        Verdict::Fits => Ok(Finding {
            audited: Audited::Fits,
            text: Text::from_bytes(alloc, b"fits\n")?,
        }),
        Verdict::Differs { line } => Ok(Finding {
            audited: Audited::Differs,
            text: Text::from_bytes(alloc, format!(in alloc; "differs {line}\n")?.as_bytes())?,
        }),
    }
}

fn too_long(alloc: Global) -> Result<Finding, NoMemory>
    ensures { IfOk result (λ finding. IsAudit finding too_long) }
{
    Ok(Finding {
        audited: Audited::TooLong,
        text: Text::from_bytes(alloc, b"transcript too long\n")?,
    })
}

fn unread(alloc: Global) -> Finding
    ensures { IsAudit result unread }
{
    Finding {
        audited: Audited::Unread,
        text: Text::new(alloc),
    }
}

fn refused(alloc: Global, fault: &LoadFault) -> Result<Finding, NoMemory>
    ensures { IfOk result (λ finding. IsAudit finding (refused fault.now)) }
{
    let mut text = String::new(alloc);
    write_refused(&mut text, fault)?;
    text.push_str("\n")?;
    Ok(Finding {
        audited: Audited::Refused,
        text: Text::from_vec(text.into_bytes()),
    })
}
