ghost use Rattle.std.specs.Prelude.{◌≡◌, ◌≢◌, ◌≤◌, ◌<◌, ◌+◌, length, IfOk, IfSome, Ok, Err, Some, vec_len, Option, List, ℕ};
ghost use Rattle.std.specs.Io.KnownBytes.{Consumes, IsAtEnd};
ghost use Rattle.pam_outside.specs.Counts.{next_count};

use crate::reader_source::ReaderSource;
use pam_base::Text;
use pam_outside::{Source, VaultFault};
use std::alloc::Global;
use std::io::Read;

/// The number of bytes read at once.
pub const CHUNK: usize = 4096;

/// Reads everything that a reader has left, at most n bytes, through a small buffer. TooLong is
/// returned only if there is more, Failed only if the reader returned an error, and Absent never.
pub fn read_to_limit<F: Read + Drop>(
    alloc: Global,
    source: &mut ReaderSource<F>,
    piece: &mut [u8; CHUNK],
    limit: u32,
) -> Result<Text, VaultFault>
    ensures bound { IfOk result (λ text. length text ≤ limit) }
    ensures whole { IfOk result
        (λ text. IfSome (F.remaining source.old.inner) (λ left. text ≡ left)) }
    ensures too_long { result ≡ Err VaultFault.TooLong →
        IfSome (F.remaining source.old.inner) (λ left. limit < length left) }
    ensures not_absent { result ≢ Err VaultFault.Absent }
    ensures failed { result ≡ Err VaultFault.Failed →
        source.new.faults ≡ next_count source.old.faults }
    ensures no_fault { result ≢ Err VaultFault.Failed → source.new.faults ≡ source.old.faults }
{
    read_until(alloc, source, piece, limit, None)
}

/// Like `read_to_limit`, for a regular file of this size: a read that reaches the size and returns
/// fewer bytes than requested is the last.
pub fn read_of_size<F: Read + Drop>(
    alloc: Global,
    source: &mut ReaderSource<F>,
    piece: &mut [u8; CHUNK],
    limit: u32,
    size: u64,
) -> Result<Text, VaultFault>
    ensures bound { IfOk result (λ text. length text ≤ limit) }
    ensures whole { IfOk result (λ text. length text ≢ size →
        IfSome (F.remaining source.old.inner) (λ left. text ≡ left)) }
    ensures front { IfOk result
        (λ text. Consumes (F.remaining source.old.inner) (F.remaining source.new.inner) text) }
    ensures too_long { result ≡ Err VaultFault.TooLong →
        IfSome (F.remaining source.old.inner) (λ left. limit < length left) }
    ensures not_absent { result ≢ Err VaultFault.Absent }
    ensures failed { result ≡ Err VaultFault.Failed →
        source.new.faults ≡ next_count source.old.faults }
    ensures no_fault { result ≢ Err VaultFault.Failed → source.new.faults ≡ source.old.faults }
{
    read_until(alloc, source, piece, limit, Some(size))
}

// Reads until a read returns nothing or, if the size is known, reaches it and returns fewer bytes than requested.
fn read_until<F: Read + Drop>(
    alloc: Global,
    source: &mut ReaderSource<F>,
    piece: &mut [u8; CHUNK],
    limit: u32,
    size: Option<u64>,
) -> Result<Text, VaultFault>
    ensures bound { IfOk result (λ text. length text ≤ limit) }
    ensures whole { IfOk result (λ text. size ≢ Some (length text) →
        IfSome (F.remaining source.old.inner) (λ left. text ≡ left)) }
    ensures front { IfOk result
        (λ text. Consumes (F.remaining source.old.inner) (F.remaining source.new.inner) text) }
    ensures too_long { result ≡ Err VaultFault.TooLong →
        IfSome (F.remaining source.old.inner) (λ left. limit < length left) }
    ensures not_absent { result ≢ Err VaultFault.Absent }
    ensures failed { result ≡ Err VaultFault.Failed →
        source.new.faults ≡ next_count source.old.faults }
    ensures no_fault { result ≢ Err VaultFault.Failed → source.new.faults ≡ source.old.faults }
{
    let mut bytes = Vec::new(alloc);
    let most = limit as usize + 1;
    while bytes.len() < most {
        let n = read_more(source, piece, &mut bytes, most)?;
        let is_short = n < CHUNK && bytes.len() < most;
        if n == 0 || (is_short && size == Some(bytes.len() as u64)) {
            return Ok(Text::from_vec(bytes));
        }
    }
    Err(VaultFault::TooLong)
}

// Reads once, and adds the bytes read, at most n in all.
fn read_more<F: Read + Drop>(
    source: &mut ReaderSource<F>,
    piece: &mut [u8; CHUNK],
    bytes: &mut Vec<u8>,
    most: usize,
) -> Result<usize, VaultFault>
    requires { vec_len bytes.old < most }
    ensures grows { IfOk result (λ n. vec_len bytes.new ≡ vec_len bytes.old + n) }
    ensures bound { IfOk result (λ n. vec_len bytes.new ≤ most) }
    ensures taken { IfOk result (λ n. (all : Option (List ℕ)) →
        Consumes all (F.remaining source.old.inner) bytes.old.items →
        Consumes all (F.remaining source.new.inner) bytes.new.items) }
    ensures end { result ≡ Ok 0 → IsAtEnd (F.remaining source.new.inner) }
    ensures causes { result ≢ Err VaultFault.Absent }
    ensures not_long { result ≢ Err VaultFault.TooLong }
    ensures failed { result ≡ Err VaultFault.Failed →
        source.new.faults ≡ next_count source.old.faults }
    ensures no_fault { result ≢ Err VaultFault.Failed → source.new.faults ≡ source.old.faults }
{
    let room = (most - bytes.len()).min(CHUNK);
    let n = source
        .read(&mut piece[..room])
        .map_err(|_| VaultFault::Failed)?;
    bytes
        .extend_from_slice(&piece[..n])
        .map_err(|_| VaultFault::NoMemory)?;
    Ok(n)
}
