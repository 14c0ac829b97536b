ghost use Rattle.std.specs.Prelude.{◌≡◌, ◌<◌, ◌≤◌, ◌+◌, IsTrue, IfOk, IfSome, OnErr, is_none, length, vec_len};
ghost use Rattle.pam_outside.specs.Counts.{RisesIf};
ghost use Rattle.cmd_audit.specs.Transcript.{IsRead, IsShort, ReadsMore, ReadsTo, Takes, is_unread};

use pam_base::{Failed, NoMemory, Text};
use pam_outside::Source;
use std::alloc::Global;

// How many bytes are read at once.
const CHUNK: usize = 4096;

// One byte more than a transcript may have: this much is read of one that is too long.
const MOST: usize = 1_048_577;

/// What was read of a transcript.
#[derive(Drop)]
pub enum Transcript {
    /// All of the transcript.
    Whole(Text),
    /// It has more than 1,048,576 bytes.
    TooLong,
    /// The source failed.
    Unread,
}

/// Reads a transcript to its end, or one byte more than it may have.
pub fn read_transcript<S: Source>(alloc: Global, source: &mut S) -> Result<Transcript, NoMemory>
    ensures tells { S.source_tells source.new ≡ S.source_tells source.old }
    ensures read { IsTrue (S.source_tells source.old) →
        IfOk result (λ transcript. IsRead transcript (S.source_holds source.old).left) }
    ensures takes { IsTrue (S.source_tells source.old) →
        Takes (S.source_holds source.old) (S.source_holds source.new) }
    ensures reads_to { IsTrue (S.source_tells source.old) →
        IfOk result (λ transcript. ReadsTo transcript (S.source_holds source.old).left
        (S.source_holds source.new).left) }
    ensures short { IfOk result (λ transcript. IsShort transcript) }
    ensures unread { IfOk result (λ transcript. RisesIf (is_unread transcript)
        (S.source_faults source.old) (S.source_faults source.new)) }
    ensures no_fault { OnErr result (S.source_faults source.new ≡ S.source_faults source.old) }
{
    let mut piece = [0u8; CHUNK];
    let mut text = Vec::new(alloc);
    while text.len() < MOST {
        match read_more(source, &mut piece, &mut text)? {
            Some(0) => return Ok(Transcript::Whole(Text::from_vec(text))),
            Some(_) => {}
            None => return Ok(Transcript::Unread),
        }
    }
    Ok(Transcript::TooLong)
}

// Reads once, and adds what it read to the text, which then has at most 1,048,577 bytes. None if the source failed.
fn read_more<S: Source>(
    source: &mut S,
    piece: &mut [u8; CHUNK],
    text: &mut Vec<u8>,
) -> Result<Option<usize>, NoMemory>
    requires { vec_len text.old < 1048577 }
    ensures tells { S.source_tells source.new ≡ S.source_tells source.old }
    ensures told { IsTrue (S.source_tells source.old) →
        ReadsMore result text.old.items text.new.items
        (S.source_holds source.old) (S.source_holds source.new) }
    ensures grows { IfOk result (λ n. IfSome n (λ n. vec_len text.new ≡ vec_len text.old + n)) }
    ensures bound { IfOk result (λ n. vec_len text.new ≤ 1048577) }
    ensures faults { IfOk result (λ n. RisesIf (is_none n)
        (S.source_faults source.old) (S.source_faults source.new)) }
    ensures no_fault { OnErr result (S.source_faults source.new ≡ S.source_faults source.old) }
{
    let room = (MOST - text.len()).min(CHUNK);
    match source.read(&mut piece[..room]) {
        Ok(n) => {
            text.extend_from_slice(&piece[..n])?;
            Ok(Some(n))
        }
        Err(Failed) => Ok(None),
    }
}
