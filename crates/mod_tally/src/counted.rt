ghost use Rattle.std.specs.Prelude.{◌≡◌, ◌++◌, count_by, IfOk, OnOk};
ghost use Rattle.mod_tally.specs.Tally.{counting, counts, failure_line, is_locked, latest, source_text, tally_text};

use crate::source::spell;
use crate::tally::Failure;
use pam_base::{NoMemory, Text};
use std::alloc::Global;

/// Whether a user with these failures is locked now: there is at least one, n count, and the lock
/// hasn't ended.
pub(crate) fn is_locked(
    deny: u32,
    interval: u32,
    unlock: u32,
    now: u64,
    failures: &[Failure],
) -> bool
    ensures { result ≡ is_locked deny interval unlock now failures.now }
{
    let greatest = latest(failures);
    !failures.is_empty()
        && u64::from(deny) <= count(interval, greatest, failures)
        && (unlock == 0 || now.saturating_sub(greatest) < u64::from(unlock))
}

// The latest time.
fn latest(failures: &[Failure]) -> u64
    ensures { result ≡ latest failures.now }
{
    let mut greatest = 0;
    let mut rest = failures;
    while let [failure, after @ ..] = rest {
        greatest = failure.moment.max(greatest);
        rest = after;
    }
    greatest
}

// How many failures count.
fn count(interval: u32, greatest: u64, failures: &[Failure]) -> u64
    ensures { result ≡ count_by (counts interval greatest) failures.now }
{
    let mut count = 0;
    let mut rest = failures;
    while let [failure, after @ ..] = rest {
        if counts(interval, greatest, failure) {
            count += 1;
        }
        rest = after;
    }
    count
}

fn counts(interval: u32, greatest: u64, failure: &Failure) -> bool
    ensures { result ≡ counts interval greatest failure.now }
{
    greatest.saturating_sub(failure.moment) < u64::from(interval)
}

/// The text of a tally file with those of the failures that count.
#[tactic(auto, unfolding(crate::specs::Tally::tally_text))]
pub(crate) fn counting_text(
    alloc: Global,
    interval: u32,
    failures: &[Failure],
) -> Result<Text, NoMemory>
    ensures { IfOk result (λ text. text ≡ tally_text (counting interval failures.now)) }
{
    let greatest = latest(failures);
    let mut out = Vec::from_slice(alloc, b"faillock 2\n")?;
    let mut rest = failures;
    while let [failure, after @ ..] = rest {
        if counts(interval, greatest, failure) {
            write_failure(alloc, &mut out, failure)?;
        }
        rest = after;
    }
    Ok(Text::from_vec(out))
}

/// Writes the line of a failure, as a tally file of version 2 has it.
pub fn write_failure(alloc: Global, out: &mut Vec<u8>, failure: &Failure) -> Result<(), NoMemory>
    ensures { OnOk result (out.new.items ≡ out.old.items ++ failure_line failure.now) }
{
    let moment = format!(in alloc; "{}", failure.moment)?;
    out.extend_from_slice(moment.as_bytes())?;
    out.push(b' ')?;
    out.push(failure.kind)?;
    write_source(out, failure.source.bytes())?;
    out.push(b'\n')?;
    Ok(())
}

fn write_source(out: &mut Vec<u8>, source: &[u8]) -> Result<(), NoMemory>
    ensures { OnOk result (out.new.items ≡ out.old.items ++ source_text source.now) }
{
    if !source.is_empty() {
        out.push(b' ')?;
        spell(out, source)?;
    }
    Ok(())
}
