ghost use Rattle.std.specs.Prelude.{◌≡◌, ◌≢◌, ◌≤◌, IsTrue, IfOk, IfSome, is_some, None, Ok, OnOk, OnErr, false};
ghost use Rattle.pam_outside.specs.Files.{counted};
ghost use Rattle.module_acts.specs.Act.{StepsOn, StepsTo, holds_lock, lets_go, reads_file, replaces_file};
ghost use Rattle.module_acts.specs.Content.{IsWithin, content_at, is_rooted};

use pam_base::{NoMemory, Text};
use pam_outside::{
    FileLock, LockKind, ReplaceFault, Vault, VaultFault, hold_file, let_go, path_of, read_file,
    replace_file,
};
use pam_room::Process;
use std::alloc::Global;

/// The maximum number of bytes of a file that a module shows or sets variables from.
pub const SMALL_FILE_LIMIT: u32 = 65536;

/// What a module finds when it looks for a file.
#[derive(Debug, Drop)]
pub enum Content {
    /// There is no such file.
    Absent,
    /// It is too long, or reading it failed.
    Unreadable,
    Holds(Text),
}

/// Reads the file with this name under a root, of which n bytes may be read, by one call of
/// `Vault`.
pub(crate) fn read_content(
    alloc: Global,
    vault: &mut dyn Vault,
    root: &[u8],
    name: &[u8],
    limit: u32,
) -> Result<Content, NoMemory>
    ensures bound { IfOk result (λ content. IsWithin content limit) }
    ensures tells { vault_tells vault.new ≡ vault_tells vault.old }
    ensures told { IsTrue (vault_tells vault.old) →
        IfOk result (λ content. content ≡ content_at root.now name.now limit
        (vault_holds vault.old)) }
    ensures calls { IsTrue (vault_tells vault.old) →
        OnOk result (vault_holds vault.new ≡ counted (vault_holds vault.old)) }
    ensures files { IsTrue (vault_tells vault.old) →
        (vault_holds vault.new).files ≡ (vault_holds vault.old).files }
    ensures faults { vault_faults vault.old ≤ vault_faults vault.new }
    ensures no_fault { result ≢ Ok Content.Unreadable →
        vault_faults vault.new ≡ vault_faults vault.old }
{
    let path = path_of(alloc, root, name)?;
    match read_file(vault, alloc, path.bytes(), limit) {
        Ok(text) => Ok(Content::Holds(text)),
        Err(VaultFault::Absent) => Ok(Content::Absent),
        Err(VaultFault::TooLong) => Ok(Content::Unreadable),
        Err(VaultFault::Failed) => Ok(Content::Unreadable),
        Err(VaultFault::NoMemory) => Err(NoMemory),
    }
}

/// Reads the file with this name, of which n bytes may be read, by one call of `Vault`. If the name
/// isn't a path from the root, the file is absent, and no call is made. The files stay, even if an
/// allocation fails; if reading failed, the file is unreadable.
pub fn read_named(
    alloc: Global,
    vault: &mut dyn Vault,
    process: &Process,
    name: &[u8],
    limit: u32,
) -> Result<Content, NoMemory>
    ensures bound { IfOk result (λ content. IsWithin content limit) }
    ensures tells { vault_tells vault.new ≡ vault_tells vault.old }
    ensures told { IsTrue (vault_tells vault.old) →
        IfOk result (λ content. StepsTo (reads_file name.now limit) content process.now
        (vault_holds vault.old) (vault_holds vault.new)) }
    ensures files { IsTrue (vault_tells vault.old) →
        (vault_holds vault.new).files ≡ (vault_holds vault.old).files }
    ensures faults { vault_faults vault.old ≤ vault_faults vault.new }
    ensures no_fault { result ≢ Ok Content.Unreadable →
        vault_faults vault.new ≡ vault_faults vault.old }
{
    if !is_rooted(name) {
        return Ok(Content::Absent);
    }
    let content = read_content(alloc, vault, process.root.bytes(), name, limit)?;
    Ok(content)
}

/// Replaces the whole file with this name, by one call of `Vault`. Returns false if that failed;
/// then, and if an allocation fails, all files are as they were.
pub fn replace_named(
    alloc: Global,
    vault: &mut dyn Vault,
    process: &Process,
    name: &[u8],
    bytes: &[u8],
) -> Result<bool, NoMemory>
    ensures tells { vault_tells vault.new ≡ vault_tells vault.old }
    ensures told { IsTrue (vault_tells vault.old) →
        IfOk result (λ done. StepsTo (replaces_file name.now bytes.now) done process.now
        (vault_holds vault.old) (vault_holds vault.new)) }
    ensures err { IsTrue (vault_tells vault.old) →
        OnErr result ((vault_holds vault.new).files ≡ (vault_holds vault.old).files) }
    ensures faults { vault_faults vault.old ≤ vault_faults vault.new }
    ensures no_fault { result ≢ Ok false → vault_faults vault.new ≡ vault_faults vault.old }
{
    let path = path_of(alloc, process.root.bytes(), name)?;
    match replace_file(vault, alloc, path.bytes(), bytes) {
        Ok(()) => Ok(true),
        Err(ReplaceFault::Failed) => Ok(false),
        Err(ReplaceFault::NoMemory) => Err(NoMemory),
    }
}

/// Takes the lock of the file with this name, by one call of `Vault`, and holds it until the result is let go or
/// dropped; None if that failed. If the name isn't a path from the root, nothing is held, and no call is made. The files stay.
pub fn hold_named(
    alloc: Global,
    vault: &mut dyn Vault,
    process: &Process,
    name: &[u8],
    kind: LockKind,
) -> Result<Option<FileLock>, NoMemory>
    ensures held { IfOk result (λ found. IfSome found (λ held. held ≡ is_rooted name.now)) }
    ensures tells { vault_tells vault.new ≡ vault_tells vault.old }
    ensures told { IsTrue (vault_tells vault.old) →
        IfOk result (λ held. StepsTo (holds_lock name.now kind) (is_some held) process.now
        (vault_holds vault.old) (vault_holds vault.new)) }
    ensures files { IsTrue (vault_tells vault.old) →
        (vault_holds vault.new).files ≡ (vault_holds vault.old).files }
    ensures faults { vault_faults vault.old ≤ vault_faults vault.new }
    ensures no_fault { result ≢ Ok None → vault_faults vault.new ≡ vault_faults vault.old }
{
    if !is_rooted(name) {
        return Ok(Some(FileLock::nothing()));
    }
    let path = path_of(alloc, process.root.bytes(), name)?;
    match hold_file(vault, alloc, path.bytes(), kind) {
        Ok(held) => Ok(Some(held)),
        Err(ReplaceFault::Failed) => Ok(None),
        Err(ReplaceFault::NoMemory) => Err(NoMemory),
    }
}

/// Lets a lock go.
pub fn release(vault: &mut dyn Vault, held: FileLock)
    ensures tells { vault_tells vault.new ≡ vault_tells vault.old }
    ensures told { IsTrue (vault_tells vault.old) →
        StepsOn (lets_go held) (vault_holds vault.old) (vault_holds vault.new) }
    ensures files { IsTrue (vault_tells vault.old) →
        (vault_holds vault.new).files ≡ (vault_holds vault.old).files }
    ensures faults { vault_faults vault.new ≡ vault_faults vault.old }
{
    let_go(vault, held)
}

/// Whether a name that an argument gives is a path from the root.
pub fn is_rooted(name: &[u8]) -> bool
    ensures { result ≡ is_rooted name.now }
{
    match name {
        [] => false,
        [first, ..] => *first == b'/',
    }
}
