ghost use Rattle.std.specs.Prelude.{◌≡◌, ◌≢◌, ◌≤◌, ℕ, List, Some, Bool, true, length, IsTrue, IfOk, OnOk, Err};
ghost use Rattle.pam_outside.specs.Counts.{Rose};
ghost use Rattle.pam_outside.specs.Files.{VaultState, ReadsFile, TellsDirectory, Replaces, TakesLock, counted, file_at, unlocked};

use crate::held::{FileLock, LockKind};
use pam_base::{NoMemory, Text};
use std::alloc::Global;

/// The most bytes that a file may be replaced by. Nothing reads a longer file.
pub const MAX_FILE: u32 = 1_048_576;

/// Why a file isn't read.
#[derive(Clone, Copy, Debug, PartialEq, Eq)]
pub enum VaultFault {
    NoMemory,
    /// There is no such file.
    Absent,
    /// The file has more bytes than the limit.
    TooLong,
    /// The outside failed.
    Failed,
}

impl From<NoMemory> for VaultFault {
    ghost use Rattle.std.specs.Prelude.{◌≡◌};
    ghost use Rattle.pam_outside.specs.declared.vault.VaultFault.{VaultFault};
    ghost use Rattle.pam_outside.specs.declared.vault.VaultFault.TheVariants as faults;

    ghost from_gives = { λ _ e. e ≡ faults.NoMemory };

    fn from(_: NoMemory) -> Self {
        VaultFault::NoMemory
    }
}

/// Why a file couldn't be replaced or locked, or a directory couldn't be looked up.
#[derive(Clone, Copy, Debug, PartialEq, Eq)]
pub enum ReplaceFault {
    NoMemory,
    /// The outside failed.
    Failed,
}

impl From<NoMemory> for ReplaceFault {
    ghost use Rattle.std.specs.Prelude.{◌≡◌};
    ghost use Rattle.pam_outside.specs.declared.vault.ReplaceFault.{ReplaceFault};
    ghost use Rattle.pam_outside.specs.declared.vault.ReplaceFault.TheVariants as faults;

    ghost from_gives = { λ _ e. e ≡ faults.NoMemory };

    fn from(_: NoMemory) -> Self {
        ReplaceFault::NoMemory
    }
}

/// Files by their paths, as in a directory.
///
/// Each call but `let_go` is counted, and leaves the numbers of the calls planned to fail
/// unchanged. If the store is modelled, Failed is returned exactly at these calls, and takes
/// precedence over every other result, NoMemory too; a replacement of more than `MAX_FILE` bytes is
/// refused in the same way. With real files Failed is returned only if the
/// count of failures rose, and the count rises with no other result.
pub trait Vault: Drop {
    /// Whether contracts know its content: it is modelled. This never changes.
    ghost vault_tells: { Self → Bool };

    /// The files, how often it was called, and the numbers of the calls planned to fail, if it is modelled.
    ghost vault_holds: { Self → VaultState };

    /// How often it has failed. The count never falls, and stops at 2^64 - 1.
    ghost vault_faults: { Self → ℕ };

    /// The bytes of the file, if there are at most `limit`. Absent is returned exactly if there is no such file, and
    /// TooLong exactly if it has more bytes. The files stay.
    fn read(&mut self, alloc: Global, path: &[u8], limit: u32) -> Result<Text, VaultFault>
        ensures bound { IfOk result (λ text. length text ≤ limit) }
        ensures tells { vault_tells self.new ≡ vault_tells self.old }
        ensures told { IsTrue (vault_tells self.old) →
            ReadsFile result path.now limit (vault_holds self.old) }
        ensures counts { IsTrue (vault_tells self.old) →
            vault_holds self.new ≡ counted (vault_holds self.old) }
        ensures faults { vault_faults self.old ≤ vault_faults self.new }
        ensures failed { result ≡ Err VaultFault.Failed →
            Rose (vault_faults self.old) (vault_faults self.new) }
        ensures no_fault { result ≢ Err VaultFault.Failed →
            vault_faults self.new ≡ vault_faults self.old };

    /// Whether a file lies below this path: whether the path of one begins with it and a slash. The files stay.
    fn folder(&mut self, alloc: Global, path: &[u8]) -> Result<bool, ReplaceFault>
        ensures tells { vault_tells self.new ≡ vault_tells self.old }
        ensures told { IsTrue (vault_tells self.old) →
            TellsDirectory result path.now (vault_holds self.old) }
        ensures counts { IsTrue (vault_tells self.old) →
            vault_holds self.new ≡ counted (vault_holds self.old) }
        ensures faults { vault_faults self.old ≤ vault_faults self.new }
        ensures failed { result ≡ Err ReplaceFault.Failed →
            Rose (vault_faults self.old) (vault_faults self.new) }
        ensures no_fault { result ≢ Err ReplaceFault.Failed →
            vault_faults self.new ≡ vault_faults self.old };

    /// Replaces the file, or adds it. If it is refused, the files are as before; every other file always stays. More
    /// than `MAX_FILE` bytes are refused.
    fn replace(&mut self, alloc: Global, path: &[u8], bytes: &[u8]) -> Result<(), ReplaceFault>
        ensures tells { vault_tells self.new ≡ vault_tells self.old }
        ensures told { IsTrue (vault_tells self.old) →
            Replaces result path.now bytes.now (vault_holds self.old) (vault_holds self.new) }
        ensures found { IsTrue (vault_tells self.old) →
            OnOk result (file_at path.now (vault_holds self.new).files ≡ Some bytes.now) }
        ensures others { IsTrue (vault_tells self.old) → (other : List ℕ) → other ≢ path.now →
            file_at other (vault_holds self.new).files ≡ file_at other
            (vault_holds self.old).files }
        ensures faults { vault_faults self.old ≤ vault_faults self.new }
        ensures failed { result ≡ Err ReplaceFault.Failed →
            Rose (vault_faults self.old) (vault_faults self.new) }
        ensures no_fault { result ≢ Err ReplaceFault.Failed →
            vault_faults self.new ≡ vault_faults self.old };

    /// Takes the lock at this path, and holds it until the result is handed to `let_go` or dropped: another process
    /// that takes it waits, for a limited time. The files stay.
    fn hold(&mut self, alloc: Global, path: &[u8], kind: LockKind) -> Result<FileLock, ReplaceFault>
        ensures held { IfOk result (λ held. held ≡ true) }
        ensures tells { vault_tells self.new ≡ vault_tells self.old }
        ensures told { IsTrue (vault_tells self.old) →
            TakesLock result path.now kind (vault_holds self.old) (vault_holds self.new) }
        ensures faults { vault_faults self.old ≤ vault_faults self.new }
        ensures failed { result ≡ Err ReplaceFault.Failed →
            Rose (vault_faults self.old) (vault_faults self.new) }
        ensures no_fault { result ≢ Err ReplaceFault.Failed →
            vault_faults self.new ≡ vault_faults self.old };

    /// Lets a lock go. It isn't counted and can't fail; the files stay. A lock that is dropped is let go, too, but
    /// the store doesn't say when.
    fn let_go(&mut self, held: FileLock)
        ensures tells { vault_tells self.new ≡ vault_tells self.old }
        ensures told { IsTrue (vault_tells self.old) →
            vault_holds self.new ≡ unlocked held (vault_holds self.old) }
        ensures faults { vault_faults self.new ≡ vault_faults self.old };
}

/// `Vault::read` of a borrowed store.
pub fn read_file(
    vault: &mut dyn Vault,
    alloc: Global,
    path: &[u8],
    limit: u32,
) -> Result<Text, VaultFault>
    ensures bound { IfOk result (λ text. length text ≤ limit) }
    ensures tells { vault_tells vault.new ≡ vault_tells vault.old }
    ensures told { IsTrue (vault_tells vault.old) →
        ReadsFile result path.now limit (vault_holds vault.old) }
    ensures counts { IsTrue (vault_tells vault.old) →
        vault_holds vault.new ≡ counted (vault_holds vault.old) }
    ensures faults { vault_faults vault.old ≤ vault_faults vault.new }
    ensures failed { result ≡ Err VaultFault.Failed →
        Rose (vault_faults vault.old) (vault_faults vault.new) }
    ensures no_fault { result ≢ Err VaultFault.Failed →
        vault_faults vault.new ≡ vault_faults vault.old }
{
    vault.read(alloc, path, limit)
}

/// `Vault::folder` of a borrowed store.
pub fn is_directory(vault: &mut dyn Vault, alloc: Global, path: &[u8]) -> Result<bool, ReplaceFault>
    ensures tells { vault_tells vault.new ≡ vault_tells vault.old }
    ensures told { IsTrue (vault_tells vault.old) →
        TellsDirectory result path.now (vault_holds vault.old) }
    ensures counts { IsTrue (vault_tells vault.old) →
        vault_holds vault.new ≡ counted (vault_holds vault.old) }
    ensures faults { vault_faults vault.old ≤ vault_faults vault.new }
    ensures failed { result ≡ Err ReplaceFault.Failed →
        Rose (vault_faults vault.old) (vault_faults vault.new) }
    ensures no_fault { result ≢ Err ReplaceFault.Failed →
        vault_faults vault.new ≡ vault_faults vault.old }
{
    vault.folder(alloc, path)
}

/// `Vault::replace` of a borrowed store.
pub fn replace_file(
    vault: &mut dyn Vault,
    alloc: Global,
    path: &[u8],
    bytes: &[u8],
) -> Result<(), ReplaceFault>
    ensures tells { vault_tells vault.new ≡ vault_tells vault.old }
    ensures told { IsTrue (vault_tells vault.old) →
        Replaces result path.now bytes.now (vault_holds vault.old) (vault_holds vault.new) }
    ensures found { IsTrue (vault_tells vault.old) →
        OnOk result (file_at path.now (vault_holds vault.new).files ≡ Some bytes.now) }
    ensures others { IsTrue (vault_tells vault.old) → (other : List ℕ) → other ≢ path.now →
        file_at other (vault_holds vault.new).files ≡ file_at other (vault_holds vault.old).files }
    ensures faults { vault_faults vault.old ≤ vault_faults vault.new }
    ensures failed { result ≡ Err ReplaceFault.Failed →
        Rose (vault_faults vault.old) (vault_faults vault.new) }
    ensures no_fault { result ≢ Err ReplaceFault.Failed →
        vault_faults vault.new ≡ vault_faults vault.old }
{
    vault.replace(alloc, path, bytes)
}

/// `Vault::hold` of a borrowed store.
pub fn hold_file(
    vault: &mut dyn Vault,
    alloc: Global,
    path: &[u8],
    kind: LockKind,
) -> Result<FileLock, ReplaceFault>
    ensures held { IfOk result (λ held. held ≡ true) }
    ensures tells { vault_tells vault.new ≡ vault_tells vault.old }
    ensures told { IsTrue (vault_tells vault.old) →
        TakesLock result path.now kind (vault_holds vault.old) (vault_holds vault.new) }
    ensures faults { vault_faults vault.old ≤ vault_faults vault.new }
    ensures failed { result ≡ Err ReplaceFault.Failed →
        Rose (vault_faults vault.old) (vault_faults vault.new) }
    ensures no_fault { result ≢ Err ReplaceFault.Failed →
        vault_faults vault.new ≡ vault_faults vault.old }
{
    vault.hold(alloc, path, kind)
}

/// `Vault::let_go` of a borrowed store.
pub fn let_go(vault: &mut dyn Vault, held: FileLock)
    ensures tells { vault_tells vault.new ≡ vault_tells vault.old }
    ensures told { IsTrue (vault_tells vault.old) →
        vault_holds vault.new ≡ unlocked held (vault_holds vault.old) }
    ensures faults { vault_faults vault.new ≡ vault_faults vault.old }
{
    vault.let_go(held)
}
