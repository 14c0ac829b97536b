ghost use Rattle.std.specs.Prelude.{◌≡◌, ◌≢◌, ◌⊎◌, None, Some, IsTrue, IfOk};
ghost use Rattle.pam_outside.specs.Counts.{Rose};
ghost use Rattle.service_load.specs.Loading.{OnlyCalls};
ghost use Rattle.cmd_audit.specs.Transcript.{IsShort};
ghost use Rattle.ways.specs.Said.{IsWritten, Written};
ghost use Rattle.ways.specs.Program.{Answers, Causes, Ends, Exits, SaysInput, SaysRead, Leaves};
ghost use Rattle.ways.specs.Program.{IsOutputOfInput, IsOutputOfRead, asked, asked_of};

use crate::saying::{Output, line_by, said, unread};
use cmd_audit::{Transcript, read_transcript};
use pam_base::{Failed, NoMemory};
use pam_outside::{Sink, Source, Vault, write_all};
use std::alloc::Global;

const USAGE: u8 = 2;

const NO_MEMORY: u8 = 4;

const WRITE_FAULT: u8 = 6;

const TOO_LONG: u8 = 12;

/// A root, and a service below it.
#[derive(Clone, Copy)]
pub struct Target<'a> {
    pub root: &'a [u8],
    pub service: &'a [u8],
}

/// The program `ways`. `words` are the arguments of the command line, without the program's name.
/// Reads the table of modules, and writes the rules and the ways of a service; what is written is
/// complete before its first byte is. Of the world only the counts of `Vault` change. It returns
/// the exit status:
///
/// - 0: the stacks of the service are told
/// - 2: there aren't exactly two arguments, so only the usage line is written
/// - 3: the configuration is refused
/// - 4: an allocation failed, and nothing is written
/// - 5: reading the table failed, or reading the configuration once more
/// - 6: a write failed, and what is written is a prefix
/// - 12: the table has more than 1,048,576 bytes
/// - 13: a line of the table isn't an entry
pub fn ways_to<S: Source, K: Sink>(
    alloc: Global,
    words: &[String],
    source: &mut S,
    out: &mut K,
    vault: &mut dyn Vault,
) -> u8
    ensures source_tells { S.source_tells source.new ≡ S.source_tells source.old }
    ensures sink_tells { K.sink_tells out.new ≡ K.sink_tells out.old }
    ensures vault_tells { vault_tells vault.new ≡ vault_tells vault.old }
    ensures told { IsTrue (vault_tells vault.old) → IsTrue (S.source_tells source.old) →
        IsTrue (K.sink_tells out.old) → Ends result (asked_of words.now) (vault_holds vault.old)
        (S.source_holds source.old).left (vault_holds vault.new) (S.source_faults source.old)
        (S.source_faults source.new) (K.sink_holds out.old) (K.sink_holds out.new) }
    ensures stays { IsTrue (vault_tells vault.old) →
        OnlyCalls (vault_holds vault.old) (vault_holds vault.new) }
    // What holds with real objects, too.
    ensures usage { asked_of words.now ≡ None → (result ≡ 2) ⊎ ((result ≡ 4) ⊎ (result ≡ 6)) }
    ensures no_usage { result ≡ 2 → asked_of words.now ≡ None }
    ensures unread { result ≡ 5 → Rose (S.source_faults source.old) (S.source_faults source.new)
        ⊎ Rose (vault_faults vault.old) (vault_faults vault.new) }
    ensures write_fault { result ≡ 6 → Rose (K.sink_faults out.old) (K.sink_faults out.new) }
    ensures no_write_fault { result ≢ 6 → K.sink_faults out.new ≡ K.sink_faults out.old }
{
    match output_for(alloc, words, source, vault) {
        Ok(output) => write_output(&output, out),
        Err(NoMemory) => NO_MEMORY,
    }
}

// What is to be written.
fn output_for<S: Source>(
    alloc: Global,
    words: &[String],
    source: &mut S,
    vault: &mut dyn Vault,
) -> Result<Output, NoMemory>
    ensures source_tells { S.source_tells source.new ≡ S.source_tells source.old }
    ensures vault_tells { vault_tells vault.new ≡ vault_tells vault.old }
    ensures told { IsTrue (vault_tells vault.old) → IsTrue (S.source_tells source.old) →
        IfOk result (λ output. Answers (λ w. IsWritten output w) (asked_of words.now)
        (vault_holds vault.old) (S.source_holds source.old).left (vault_holds vault.new)
        (S.source_faults source.old) (S.source_faults source.new)) }
    ensures stays { IsTrue (vault_tells vault.old) →
        OnlyCalls (vault_holds vault.old) (vault_holds vault.new) }
    ensures causes { IfOk result (λ output. Causes output.status (asked_of words.now)
        (S.source_faults source.old) (S.source_faults source.new)
        (vault_faults vault.old) (vault_faults vault.new)) }
{
    match place_in(words) {
        Some(place) => said_input(alloc, place.root, place.service, source, vault),
        None => line_by(alloc, USAGE, "usage: ways ROOT SERVICE < TABLE\n"),
    }
}

// What the arguments name; None unless there are exactly two.
fn place_in(words: &[String]) -> Option<Target<'_>>
    ensures { asked result ≡ asked_of words.now }
{
    match words {
        [root, service] => Some(Target {
            root: root.as_bytes(),
            service: service.as_bytes(),
        }),
        _ => None,
    }
}

// Reads the table, and says what follows from it.
fn said_input<S: Source>(
    alloc: Global,
    root: &[u8],
    service: &[u8],
    source: &mut S,
    vault: &mut dyn Vault,
) -> Result<Output, NoMemory>
    ensures source_tells { S.source_tells source.new ≡ S.source_tells source.old }
    ensures vault_tells { vault_tells vault.new ≡ vault_tells vault.old }
    ensures told { IsTrue (vault_tells vault.old) → IsTrue (S.source_tells source.old) →
        IfOk result (λ output. SaysInput (λ w. IsWritten output w) (vault_holds vault.old)
        root.now service.now (S.source_holds source.old).left (vault_holds vault.new)
        (S.source_faults source.old) (S.source_faults source.new)) }
    ensures stays { IsTrue (vault_tells vault.old) →
        OnlyCalls (vault_holds vault.old) (vault_holds vault.new) }
    ensures shows { IfOk result (λ output.
        IsOutputOfInput output service.now (S.source_faults source.old)
        (S.source_faults source.new) (vault_faults vault.old) (vault_faults vault.new)) }
{
    let table = read_transcript(alloc, source)?;
    said_of_text(alloc, root, service, table, vault)
}

// What follows from what was read.
fn said_of_text(
    alloc: Global,
    root: &[u8],
    service: &[u8],
    table: Transcript,
    vault: &mut dyn Vault,
) -> Result<Output, NoMemory>
    requires { IsShort table }
    ensures tells { vault_tells vault.new ≡ vault_tells vault.old }
    ensures told { IsTrue (vault_tells vault.old) → IfOk result (λ output.
        SaysRead (λ w. IsWritten output w) table (vault_holds vault.old) root.now
        service.now (vault_holds vault.new)) }
    ensures stays { IsTrue (vault_tells vault.old) →
        OnlyCalls (vault_holds vault.old) (vault_holds vault.new) }
    ensures shows { IfOk result (λ output.
        IsOutputOfRead output service.now table (vault_faults vault.old) (vault_faults vault.new)) }
{
    match table {
        Transcript::Whole(text) => said(alloc, root, service, text.bytes(), vault),
        Transcript::TooLong => line_by(alloc, TOO_LONG, "table too long\n"),
        Transcript::Unread => Ok(unread(alloc)),
    }
}

// Writes an output, and returns the exit status: its own, or 6 if a write fails.
fn write_output<K: Sink>(output: &Output, out: &mut K) -> u8
    ensures tells { K.sink_tells out.new ≡ K.sink_tells out.old }
    ensures told { IsTrue (K.sink_tells out.old) → (w : Written) → IsWritten output.now w →
        Exits result w (K.sink_holds out.old) (K.sink_holds out.new) }
    ensures leaves { Leaves result output.now.status (K.sink_faults out.old)
        (K.sink_faults out.new) }
{
    match write_all(out, output.text.as_bytes()) {
        Ok(()) => output.status,
        Err(Failed) => WRITE_FAULT,
    }
}
