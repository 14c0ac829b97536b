ghost use Rattle.std.specs.Prelude.{◌≡◌, ◌==◌, ◌&&◌, ◌||◌, codes, nat_le, length, if◌then◌else◌, IsTrue, IfOk, IfSome, OnErr, is_some};
ghost use Rattle.std.specs.List.{list_any};
ghost use Rattle.std.specs.Str.{bytes_eq};
ghost use Rattle.pam_outside.specs.declared.held.LockKind.{LockKind};
ghost use Rattle.module_acts.specs.Content.{is_rooted};
ghost use Rattle.module_acts.specs.Act.{StepsTo, holds_lock};
ghost use Rattle.mod_tally.specs.Faillock.{failures_in, is_no_file, lock_name, reads_tally, sets_text, tally_limit, tally_name, write_result};

use crate::tally::{Failures, read_failures};
use module_acts::pam_room::Process;
use module_acts::{CheckInput, Content, hold_named, is_rooted, laws, read_named, replace_named};
use pam_base::{Code, NoMemory, Text};
use pam_outside::{FileLock, LockKind, Vault};
use std::alloc::Global;

/// The maximum number of bytes of a tally file.
pub const TALLY_LIMIT: u32 = 65536;

/// Whether a user's name can't be the name of a file: it is empty, `.` or `..`, or holds a slash.
pub fn is_no_file(user: &[u8]) -> bool
    ensures { result ≡ is_no_file user.now }
{
    user.is_empty() || are_dots(user) || has_slash(user)
}

fn are_dots(user: &[u8]) -> bool
    ensures { result ≡ (bytes_eq user.now (codes ".") || bytes_eq user.now (codes "..")) }
{
    user == b".".as_slice() || user == b"..".as_slice()
}

fn has_slash(user: &[u8]) -> bool
    ensures { result ≡ list_any (λ b. b == 47) user.now }
{
    user.iter().any(|byte| *byte == b'/')
}

/// The name of a user's file, in the directory; empty if the directory isn't a path from the root.
pub(crate) fn tally_name(alloc: Global, folder: &[u8], user: &[u8]) -> Result<Text, NoMemory>
    ensures { IfOk result (λ name. name ≡ tally_name folder.now user.now) }
{
    let mut name = Vec::new(alloc);
    if is_rooted(folder) {
        name.extend_from_slice(folder)?;
        name.push(b'/')?;
        name.extend_from_slice(user)?;
    }
    Ok(Text::from_vec(name))
}

/// The name of the lock of a user's file.
pub(crate) fn lock_name(alloc: Global, folder: &[u8], user: &[u8]) -> Result<Text, NoMemory>
    ensures { IfOk result (λ name. name ≡ lock_name folder.now user.now) }
{
    let mut name = Vec::from_slice(alloc, b".")?;
    name.extend_from_slice(user)?;
    name.extend_from_slice(b":pamsess-lock")?;
    tally_name(alloc, folder, name.as_slice())
}

/// Takes the lock with this name; None if that failed. The files stay.
pub(crate) fn hold_tally(
    alloc: Global,
    process: &Process,
    vault: &mut dyn Vault,
    lock: &[u8],
) -> Result<Option<FileLock>, NoMemory>
    ensures tells { vault_tells vault.new ≡ vault_tells vault.old }
    ensures told { IsTrue (vault_tells vault.old) →
        IfOk result (λ held. StepsTo (holds_lock lock.now LockKind.Whole) (is_some held)
        process.now (vault_holds vault.old) (vault_holds vault.new)) }
    ensures held { IfOk result (λ found. IfSome found (λ held. held ≡ is_rooted lock.now)) }
    ensures files { IsTrue (vault_tells vault.old) →
        (vault_holds vault.new).files ≡ (vault_holds vault.old).files }
{
    let held = hold_named(alloc, vault, process, lock, LockKind::Whole)?;
    Ok(held)
}

/// Reads the failures in the file with this name; None if it can't be read.
pub(crate) fn read_tally(
    alloc: Global,
    process: &Process,
    vault: &mut dyn Vault,
    name: &[u8],
) -> Result<Option<Failures>, NoMemory>
    ensures tells { vault_tells vault.new ≡ vault_tells vault.old }
    ensures files { IsTrue (vault_tells vault.old) →
        (vault_holds vault.new).files ≡ (vault_holds vault.old).files }
    ensures told { IsTrue (vault_tells vault.old) →
        IfOk result (λ found. StepsTo (reads_tally name.now) found process.now
        (vault_holds vault.old) (vault_holds vault.new)) }
{
    let content = read_named(alloc, vault, process, name, TALLY_LIMIT)?;
    let found = failures_in(alloc, content)?;
    Ok(found)
}

fn failures_in(alloc: Global, content: Content) -> Result<Option<Failures>, NoMemory>
    ensures { IfOk result (λ found. found ≡ failures_in content) }
{
    match content {
        Content::Absent => Ok(Some(Failures::new(alloc))),
        Content::Unreadable => Ok(None),
        Content::Holds(text) => read_failures(alloc, text.bytes()),
    }
}

/// Replaces the file with this name, and returns this code, or SERVICE_ERR if the text is too long
/// or the file can't be set.
pub(crate) fn set_text(
    seen: &CheckInput,
    vault: &mut dyn Vault,
    name: &[u8],
    text: &[u8],
    code: Code,
) -> Result<Code, NoMemory>
    ensures tells { vault_tells vault.new ≡ vault_tells vault.old }
    ensures err { IsTrue (vault_tells vault.old) →
        OnErr result ((vault_holds vault.new).files ≡ (vault_holds vault.old).files) }
    ensures told { IsTrue (vault_tells vault.old) →
        IfOk result (λ answer. StepsTo (sets_text name.now text.now code) answer
        seen.now.process.now (vault_holds vault.old) (vault_holds vault.new)) }
{
    if !can_be_set(name, text) {
        return Ok(Code::ServiceErr);
    }
    let done = replace_named(seen.alloc, vault, seen.process, name, text)?;
    Ok(write_result(code, done))
}

fn can_be_set(name: &[u8], text: &[u8]) -> bool
    ensures { result ≡ (is_rooted name.now && nat_le (length text.now) tally_limit) }
{
    is_rooted(name) && text.len() <= TALLY_LIMIT as usize
}

fn write_result(code: Code, done: bool) -> Code
    ensures { result ≡ write_result code done }
{
    if done { code } else { Code::ServiceErr }
}
