ghost use Rattle.std.specs.Prelude.{◌≡◌, ◌≢◌, ℕ, List, [], Some, OnOk, OnErr, option_map};
ghost use Rattle.std.specs.List.{position};
ghost use Rattle.std.specs.Str.{bytes_eq};
ghost use Rattle.pam_outside.specs.Files.{file_at, file_put, is_below, is_directory, no_locks, with_lock};

use crate::calls::Calls;
use crate::held::{FileLock, LockKind};
use crate::vault::{MAX_FILE, ReplaceFault, Vault, VaultFault};
use pam_base::{NoMemory, Numbers, Text};
use std::alloc::Global;
use std::marker::Model;

// A file in memory.
#[derive(Drop)]
struct StoredFile {
    path: Text,
    bytes: Text,
}

impl Model for StoredFile {
    ghost use Rattle.pam_outside.specs.Files.{File};

    ghost Value = { File };

    ghost view = { λ f. record { path = f.path; bytes = f.bytes } };
}

// A lock that was taken.
#[derive(Drop)]
struct TakenLock {
    path: Text,
    kind: LockKind,
    calls: u64,
}

impl Model for TakenLock {
    ghost use Rattle.pam_outside.specs.Files.{Lock};

    ghost Value = { Lock };

    ghost view = { λ l. record { path = l.path; kind = l.kind; calls = l.calls } };
}

/// Files in memory, with any paths. It is modelled: exactly the calls with the given numbers fail, and replacements of
/// more than `MAX_FILE` bytes.
#[derive(Drop)]
pub struct MemVault {
    files: Vec<StoredFile>,
    locks: Vec<TakenLock>,
    let_go: u64,
    calls: Calls,
}

impl Model for MemVault {
    ghost use Rattle.pam_outside.specs.Memory.{VaultMemory};

    ghost Value = { VaultMemory };

    ghost view = { λ v. record {
      files = v.files.items;
      locks = record { taken = v.locks.items; let_go = v.let_go };
      calls = v.calls.made;
      faults = v.calls.faults;
      fails = v.calls.fails;
    } };
}

impl MemVault {
    /// A store without files. `fails` has the numbers, from 1, of the calls planned to fail. Allocates nothing.
    pub fn new(alloc: Global, fails: Numbers) -> MemVault
        ensures { result ≡ record {
          files = [];
          locks = no_locks;
          calls = 0;
          faults = 0;
          fails = fails;
        } }
    {
        MemVault {
            files: Vec::new(alloc),
            locks: Vec::new(alloc),
            let_go: 0,
            calls: Calls::new(fails),
        }
    }

    /// Sets the file with this path: an existing one is replaced, and keeps its position. This isn't counted as a call.
    /// If memory runs out, nothing changes.
    pub fn put(&mut self, alloc: Global, path: &[u8], bytes: &[u8]) -> Result<(), NoMemory>
        ensures ok { OnOk result
            (self.new ≡ record self.old { files = file_put path.now bytes.now self.old.files }) }
        ensures found { OnOk result (file_at path.now self.new.files ≡ Some bytes.now) }
        ensures others { OnOk result ((other : List ℕ) → other ≢ path.now →
            file_at other self.new.files ≡ file_at other self.old.files) }
        ensures err { OnErr result (self.new ≡ self.old) }
    {
        let file = StoredFile {
            path: Text::from_bytes(alloc, path)?,
            bytes: Text::from_bytes(alloc, bytes)?,
        };
        match place_of(path, &self.files) {
            Some(place) => self.files[place] = file,
            None => self.files.push(file)?,
        }
        Ok(())
    }

    // Notes a lock that is taken. If memory runs out, nothing changes.
    fn note_lock(&mut self, alloc: Global, path: &[u8], kind: LockKind) -> Result<(), NoMemory>
        ensures ok { OnOk result
            (self.new ≡ record self.old { locks = with_lock path.now kind self.old.calls self.old.locks }) }
        ensures err { OnErr result (self.new ≡ self.old) }
    {
        let path = Text::from_bytes(alloc, path)?;
        let calls = self.calls.made;
        self.locks.push(TakenLock { path, kind, calls })?;
        Ok(())
    }
}

// The index of the file with this path.
fn place_of(path: &[u8], files: &[StoredFile]) -> Option<usize>
    ensures { result ≡ position (λ file. bytes_eq file.path path.now) files.now }
{
    files.iter().position(|file| file.path.bytes() == path)
}

// The bytes of the file with this path.
fn bytes_at<'a>(path: &[u8], files: &'a [StoredFile]) -> Option<&'a [u8]>
    ensures { option_map (λ bytes. bytes.now) result ≡ file_at path.now files.now }
{
    for file in files {
        if file.path.bytes() == path {
            return Some(file.bytes.bytes());
        }
    }
    None
}

// Whether a file lies below this path.
fn has_file_below(folder: &[u8], files: &[StoredFile]) -> bool
    ensures { result ≡ is_directory folder.now files.now }
{
    files.iter().any(|file| is_below(folder, file.path.bytes()))
}

// Whether a path begins with this one and a slash.
fn is_below(folder: &[u8], path: &[u8]) -> bool
    ensures { result ≡ is_below folder.now path.now }
{
    match path.strip_prefix(folder) {
        Some(rest) => rest.starts_with(b"/"),
        None => false,
    }
}

impl Vault for MemVault {
    ghost use Rattle.std.specs.Prelude.{true};

    ghost vault_tells = { λ v. true };

    ghost vault_holds = { λ v. record { files = v.files; locks = v.locks; calls = v.calls; fails = v.fails } };

    ghost vault_faults = { λ v. v.faults };

    fn read(&mut self, alloc: Global, path: &[u8], limit: u32) -> Result<Text, VaultFault> {
        if self.calls.next_fails() {
            self.calls.count_fault();
            return Err(VaultFault::Failed);
        }
        let Some(bytes) = bytes_at(path, &self.files) else {
            return Err(VaultFault::Absent);
        };
        if bytes.len() > limit as usize {
            return Err(VaultFault::TooLong);
        }
        Ok(Text::from_bytes(alloc, bytes)?)
    }

    /// Allocates nothing.
    fn folder(&mut self, _alloc: Global, path: &[u8]) -> Result<bool, ReplaceFault> {
        if self.calls.next_fails() {
            self.calls.count_fault();
            return Err(ReplaceFault::Failed);
        }
        Ok(has_file_below(path, &self.files))
    }

    fn replace(&mut self, alloc: Global, path: &[u8], bytes: &[u8]) -> Result<(), ReplaceFault> {
        if self.calls.next_fails() || bytes.len() > MAX_FILE as usize {
            self.calls.count_fault();
            return Err(ReplaceFault::Failed);
        }
        self.put(alloc, path, bytes)?;
        Ok(())
    }

    /// No other process has these files: the lock is only noted.
    fn hold(
        &mut self,
        alloc: Global,
        path: &[u8],
        kind: LockKind,
    ) -> Result<FileLock, ReplaceFault> {
        if self.calls.next_fails() {
            self.calls.count_fault();
            return Err(ReplaceFault::Failed);
        }
        self.note_lock(alloc, path, kind)?;
        Ok(FileLock::in_memory())
    }

    fn let_go(&mut self, held: FileLock) {
        if held.is_taken() {
            self.let_go = self.calls.made;
        }
    }
}
