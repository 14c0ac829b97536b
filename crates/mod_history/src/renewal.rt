ghost use Rattle.std.specs.Prelude.{◌≡◌, ◌<◌, ◌++◌, None, IfOk, OnOk};
ghost use Rattle.std.specs.List.{flat_map, last_or};
ghost use Rattle.mod_history.specs.History.{hash_text, history_text, whole_line};
ghost use Rattle.mod_history.specs.Renewal.{is_left_out, is_text, last_of, new_line, renewed, renewed_hashes};

use crate::history::{History, Remembered};
use mod_unix::is_locked;
use pam_base::{NoMemory, Text};
use std::alloc::Global;

/// The text of the history with the user's line renewed: this hash is added at its end, and the
/// last n are kept.
#[tactic(auto, unfolding(crate::specs::History::history_text))]
pub(crate) fn renewed_text(
    alloc: Global,
    remember: u32,
    user: &[u8],
    hash: &[u8],
    history: &History,
) -> Result<Text, NoMemory>
    requires { 0 < remember }
    ensures { IfOk result (λ text. text ≡ history_text (renewed remember user.now hash.now
        history.now)) }
{
    let mut out = Vec::new(alloc);
    put_renewed(&mut out, remember, user, hash, history.items())?;
    Ok(Text::from_vec(out))
}

fn put_renewed(
    out: &mut Vec<u8>,
    remember: u32,
    user: &[u8],
    hash: &[u8],
    history: &[Remembered],
) -> Result<(), NoMemory>
    requires { 0 < remember }
    ensures { OnOk result (out.new.items ≡ out.old.items
        ++ flat_map whole_line (renewed remember user.now hash.now history.now)) }
{
    let mut rest = history;
    while let [line, after @ ..] = rest {
        if line.name.bytes() == user {
            put_renewed_line(out, remember, hash, line)?;
            return put_lines(out, after);
        }
        put_line(out, line)?;
        rest = after;
    }
    put_new_line(out, user, hash)
}

// A line for a user who has none, unless the hash is left out.
fn put_new_line(out: &mut Vec<u8>, user: &[u8], hash: &[u8]) -> Result<(), NoMemory>
    ensures { OnOk result (out.new.items ≡ out.old.items
        ++ flat_map whole_line (new_line user.now hash.now)) }
{
    if !is_locked(hash) {
        out.extend_from_slice(user)?;
        put_hash(out, hash)?;
        out.push(b'\n')?;
    }
    Ok(())
}

// The user's line, renewed.
fn put_renewed_line(
    out: &mut Vec<u8>,
    remember: u32,
    hash: &[u8],
    line: &Remembered,
) -> Result<(), NoMemory>
    requires { 0 < remember }
    ensures { OnOk result (out.new.items ≡ out.old.items
        ++ (let hashes = renewed_hashes remember hash.now line.now.hashes in
        whole_line (record { name = line.now.name; hashes = hashes }))) }
{
    let hashes = line.hashes.items();
    let remember = remember as usize;
    out.extend_from_slice(line.name.bytes())?;
    if is_left_out(hash, hashes) {
        put_hashes(out, last_of(remember, hashes))?;
    } else {
        put_hashes(out, last_of(remember - 1, hashes))?;
        put_hash(out, hash)?;
    }
    out.push(b'\n')?;
    Ok(())
}

// Whether a hash isn't added: it is empty or locked, or already the last.
fn is_left_out(hash: &[u8], hashes: &[Text]) -> bool
    ensures { result ≡ is_left_out hash.now hashes.now }
{
    is_locked(hash) || is_last(hash, hashes)
}

fn is_last(hash: &[u8], hashes: &[Text]) -> bool
    ensures { result ≡ is_text hash.now (last_or None hashes.now) }
{
    match hashes.last() {
        Some(last) => last.bytes() == hash,
        None => false,
    }
}

// The last n.
fn last_of(count: usize, hashes: &[Text]) -> &[Text]
    ensures { result.now ≡ last_of count hashes.now }
{
    &hashes[hashes.len().saturating_sub(count)..]
}

fn put_lines(out: &mut Vec<u8>, lines: &[Remembered]) -> Result<(), NoMemory>
    ensures { OnOk result (out.new.items ≡ out.old.items ++ flat_map whole_line lines.now) }
{
    let mut rest = lines;
    while let [line, after @ ..] = rest {
        put_line(out, line)?;
        rest = after;
    }
    Ok(())
}

fn put_line(out: &mut Vec<u8>, line: &Remembered) -> Result<(), NoMemory>
    ensures { OnOk result (out.new.items ≡ out.old.items ++ whole_line line.now) }
{
    out.extend_from_slice(line.name.bytes())?;
    put_hashes(out, line.hashes.items())?;
    out.push(b'\n')?;
    Ok(())
}

fn put_hashes(out: &mut Vec<u8>, hashes: &[Text]) -> Result<(), NoMemory>
    ensures { OnOk result (out.new.items ≡ out.old.items ++ flat_map hash_text hashes.now) }
{
    let mut rest = hashes;
    while let [hash, after @ ..] = rest {
        put_hash(out, hash.bytes())?;
        rest = after;
    }
    Ok(())
}

fn put_hash(out: &mut Vec<u8>, hash: &[u8]) -> Result<(), NoMemory>
    ensures { OnOk result (out.new.items ≡ out.old.items ++ hash_text hash.now) }
{
    out.push(b':')?;
    out.extend_from_slice(hash)?;
    Ok(())
}
