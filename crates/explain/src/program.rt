ghost use Rattle.std.specs.Prelude.{◌≡◌, ◌≢◌, ◌⊎◌, None, Some, IsTrue, IfOk};
ghost use Rattle.pam_outside.specs.Counts.{Rose};
ghost use Rattle.session_audit.specs.service_load.specs.Loading.{OnlyCalls};
ghost use Rattle.cmd_audit.specs.Transcript.{IsShort};
ghost use Rattle.explain.specs.Explained.{IsExplained, Written};
ghost use Rattle.explain.specs.Program.{Answers, Causes, Ends, Exits, ExplainsInput, ExplainsRead, Leaves, IsOutputOfInput, IsOutputOfRead, asked, asked_of};

use crate::explaining::{Output, explanation, line_by, unread};
use cmd_audit::{Transcript, read_transcript};
use pam_base::{Failed, NoMemory};
use pam_outside::{Sink, Source, Vault, write_all};
use std::alloc::Global;

const USAGE: u8 = 2;

const NO_MEMORY: u8 = 4;

const WRITE_FAULT: u8 = 6;

const TOO_LONG: u8 = 12;

/// A root, and a service below it.
#[derive(Clone, Copy)]
pub struct Target<'a> {
    pub root: &'a [u8],
    pub service: &'a [u8],
}

/// The program `explain`. `words` are the arguments of the command line, without the program's
/// name. Reads a report, and writes its explanation; what is written is complete before its first
/// byte is. Of the world only the counts of `Vault` change. It returns the exit status, which is
/// that of `pamsess audit`:
///
/// - 0: the report fits the service, and its stack calls are explained
/// - 2: there aren't exactly two arguments, so only the usage line is written
/// - 3: the configuration is refused
/// - 4: an allocation failed, and nothing is written
/// - 5: reading the report failed, or reading the configuration once more
/// - 6: a write failed, and what is written is a prefix
/// - 11: the report doesn't fit
/// - 12: the report has more than 1,048,576 bytes
pub fn explain_to<S: Source, K: Sink>(
    alloc: Global,
    words: &[String],
    source: &mut S,
    out: &mut K,
    vault: &mut dyn Vault,
) -> u8
    ensures source_tells { S.source_tells source.new ≡ S.source_tells source.old }
    ensures sink_tells { K.sink_tells out.new ≡ K.sink_tells out.old }
    ensures vault_tells { vault_tells vault.new ≡ vault_tells vault.old }
    ensures told { IsTrue (vault_tells vault.old) → IsTrue (S.source_tells source.old) →
        IsTrue (K.sink_tells out.old) → Ends result (asked_of words.now) (vault_holds vault.old)
        (S.source_holds source.old).left (vault_holds vault.new) (S.source_faults source.old)
        (S.source_faults source.new) (K.sink_holds out.old) (K.sink_holds out.new) }
    ensures stays { IsTrue (vault_tells vault.old) →
        OnlyCalls (vault_holds vault.old) (vault_holds vault.new) }
    // What holds with real objects, too.
    ensures usage { asked_of words.now ≡ None → (result ≡ 2) ⊎ ((result ≡ 4) ⊎ (result ≡ 6)) }
    ensures no_usage { result ≡ 2 → asked_of words.now ≡ None }
    ensures unread { result ≡ 5 → Rose (S.source_faults source.old) (S.source_faults source.new)
        ⊎ Rose (vault_faults vault.old) (vault_faults vault.new) }
    ensures write_fault { result ≡ 6 → Rose (K.sink_faults out.old) (K.sink_faults out.new) }
    ensures no_write_fault { result ≢ 6 → K.sink_faults out.new ≡ K.sink_faults out.old }
{
    match output_for(alloc, words, source, vault) {
        Ok(output) => write_output(&output, out),
        Err(NoMemory) => NO_MEMORY,
    }
}

// What is to be written.
fn output_for<S: Source>(
    alloc: Global,
    words: &[String],
    source: &mut S,
    vault: &mut dyn Vault,
) -> Result<Output, NoMemory>
    ensures source_tells { S.source_tells source.new ≡ S.source_tells source.old }
    ensures vault_tells { vault_tells vault.new ≡ vault_tells vault.old }
    ensures told { IsTrue (vault_tells vault.old) → IsTrue (S.source_tells source.old) →
        IfOk result (λ output. Answers (λ w. IsExplained output w) (asked_of words.now)
        (vault_holds vault.old) (S.source_holds source.old).left (vault_holds vault.new)
        (S.source_faults source.old) (S.source_faults source.new)) }
    ensures stays { IsTrue (vault_tells vault.old) →
        OnlyCalls (vault_holds vault.old) (vault_holds vault.new) }
    ensures causes { IfOk result (λ output. Causes output.status (asked_of words.now)
        (S.source_faults source.old) (S.source_faults source.new)
        (vault_faults vault.old) (vault_faults vault.new)) }
{
    match place_in(words) {
        Some(place) => explained_input(alloc, place.root, place.service, source, vault),
        None => line_by(alloc, USAGE, "usage: explain ROOT SERVICE < REPORT\n"),
    }
}

// What the arguments name; None unless there are exactly two.
fn place_in(words: &[String]) -> Option<Target<'_>>
    ensures { asked result ≡ asked_of words.now }
{
    match words {
        [root, service] => Some(Target {
            root: root.as_bytes(),
            service: service.as_bytes(),
        }),
        _ => None,
    }
}

// Reads a report, and explains it.
fn explained_input<S: Source>(
    alloc: Global,
    root: &[u8],
    service: &[u8],
    source: &mut S,
    vault: &mut dyn Vault,
) -> Result<Output, NoMemory>
    ensures source_tells { S.source_tells source.new ≡ S.source_tells source.old }
    ensures vault_tells { vault_tells vault.new ≡ vault_tells vault.old }
    ensures told { IsTrue (vault_tells vault.old) → IsTrue (S.source_tells source.old) →
        IfOk result (λ output. ExplainsInput (λ w. IsExplained output w) (vault_holds vault.old)
        root.now service.now (S.source_holds source.old).left (vault_holds vault.new)
        (S.source_faults source.old) (S.source_faults source.new)) }
    ensures stays { IsTrue (vault_tells vault.old) →
        OnlyCalls (vault_holds vault.old) (vault_holds vault.new) }
    ensures shows { IfOk result (λ output. IsOutputOfInput output (S.source_faults source.old)
        (S.source_faults source.new) (vault_faults vault.old) (vault_faults vault.new)) }
{
    let report = read_transcript(alloc, source)?;
    explained_report(alloc, root, service, report, vault)
}

// The explanation of what was read.
fn explained_report(
    alloc: Global,
    root: &[u8],
    service: &[u8],
    report: Transcript,
    vault: &mut dyn Vault,
) -> Result<Output, NoMemory>
    requires { IsShort report }
    ensures tells { vault_tells vault.new ≡ vault_tells vault.old }
    ensures told { IsTrue (vault_tells vault.old) → IfOk result (λ output.
        ExplainsRead (λ w. IsExplained output w) report (vault_holds vault.old) root.now
        service.now (vault_holds vault.new)) }
    ensures stays { IsTrue (vault_tells vault.old) →
        OnlyCalls (vault_holds vault.old) (vault_holds vault.new) }
    ensures shows { IfOk result (λ output.
        IsOutputOfRead output report (vault_faults vault.old) (vault_faults vault.new)) }
{
    match report {
        Transcript::Whole(text) => explanation(alloc, root, service, text.bytes(), vault),
        Transcript::TooLong => line_by(alloc, TOO_LONG, "transcript too long\n"),
        Transcript::Unread => Ok(unread(alloc)),
    }
}

// Writes an output, and returns the exit status: its own, or 6 if a write fails.
fn write_output<K: Sink>(output: &Output, out: &mut K) -> u8
    ensures tells { K.sink_tells out.new ≡ K.sink_tells out.old }
    ensures told { IsTrue (K.sink_tells out.old) → (w : Written) → IsExplained output.now w →
        Exits result w (K.sink_holds out.old) (K.sink_holds out.new) }
    ensures leaves { Leaves result output.now.status (K.sink_faults out.old)
        (K.sink_faults out.new) }
{
    match write_all(out, output.text.as_bytes()) {
        Ok(()) => output.status,
        Err(Failed) => WRITE_FAULT,
    }
}
