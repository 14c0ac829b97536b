ghost use Rattle.std.specs.Prelude.{◌≡◌, ◌≢◌, ◌≤◌, ◌<◌, ◌↔◌, [], Some, false, true};
ghost use Rattle.std.specs.Prelude.{is_some, length, IfOk, Err};
ghost use Rattle.std.specs.Str.{IsUtf8};
ghost use Rattle.pam_outside.specs.declared.vault.TheConstants.{MAX_FILE};
ghost use Rattle.pam_outside.specs.Counts.{next_count};
ghost use Rattle.pam_outside.specs.Paths.{path_of};
ghost use Rattle.system_objects.specs.Folder.{files_below};

use crate::beside::Replacement;
use crate::held_file::{HeldFile, open_file, put_held};
use crate::limited::{CHUNK, read_of_size, read_to_limit};
use crate::lock::LockAt;
use crate::read_at::ReadAt;
use crate::reader_source::ReaderSource;
use crate::system::{hold_in, is_full, look_in, replace_in};
use pam_base::{NoMemory, Text};
use pam_outside::{FileLock, LockKind, MAX_FILE, ReplaceFault, Vault, VaultFault, path_of};
use std::alloc::Global;
use std::fs::Metadata;
use std::io::{self, ErrorKind};
use std::marker::Model;

/// The files of a runtime that `main` gets, by their paths; a relative path begins at the working directory. Only its
/// failures are modelled: each Failed counts one, and nothing else does. A path that isn't UTF-8 is Failed.
///
/// A store that is made by `below` stays below its root, as in a chroot: a link that begins with a slash begins at the
/// root, `..` stops there, and a path that doesn't begin with the root's is Failed. A file that is read
/// is the one that was found on the way, or Failed is returned. But who may write in a directory on
/// the way can exchange it for a link between two looks of the same way: keep such people out of
/// the tree.
#[derive(Drop)]
pub struct FolderVault {
    rt: HostRuntime,
    /// The path of the root, without slashes at its end; empty if it is the whole system.
    root: Text,
    faults: u64,
    /// The buffer of a read, so that it isn't cleared for each.
    piece: [u8; CHUNK],
    /// The files that stay open. Each is read again every time, but opened again only if its path
    /// names another file by now.
    held: Vec<HeldFile>,
    /// Where the lock was taken that isn't let go.
    lock: Option<LockAt>,
}

impl Model for FolderVault {
    ghost use Rattle.std.specs.Prelude.{is_some};
    ghost use Rattle.std.specs.declared.rt.LibcRuntime.{LibcRuntime};
    ghost use Rattle.system_objects.specs.Folder.{Folder};

    ghost Value = { Folder LibcRuntime };

    ghost view = { λ v. record {
      rt = v.rt;
      root = v.root;
      faults = v.faults;
      locked = is_some v.lock;
    } };
}

impl FolderVault {
    /// The files of the whole system, found as the system finds them. It hasn't failed yet.
    pub fn new(rt: HostRuntime) -> Self
        ensures { result ≡ record { rt = rt; root = []; faults = 0; locked = false } }
    {
        FolderVault {
            rt,
            root: Text::new(rt.alloc()),
            faults: 0,
            piece: [0; CHUNK],
            held: Vec::new(rt.alloc()),
            lock: None,
        }
    }

    /// The files below a root directory, whose path their paths begin with; all files if it is `/`. It hasn't failed
    /// yet. Nothing is opened. The error is OutOfMemory.
    pub fn below(rt: HostRuntime, root: &[u8]) -> io::Result<Self>
        ensures { IfOk result (λ vault. vault
            ≡ record { rt = rt; root = path_of root.now []; faults = 0; locked = false }) }
    {
        let alloc = rt.alloc();
        let root = match path_of(alloc, root, b"") {
            Ok(path) => path,
            Err(NoMemory) => return Err(ErrorKind::OutOfMemory.into()),
        };
        Ok(FolderVault {
            rt,
            root,
            faults: 0,
            piece: [0; CHUNK],
            held: Vec::new(alloc),
            lock: None,
        })
    }
}

impl Vault for FolderVault {
    ghost vault_tells = { λ v. false };

    // never modelled: it names the root
    ghost vault_holds = { λ v. files_below v.root };

    ghost vault_faults = { λ v. v.faults };

    /// Absent is returned if the system says that there is no such file, or no directory on the way to it, and only
    /// then. Failed is returned, without reading it, for what isn't a regular file; also for a path
    /// that the system refuses, and for any other error. If no more files can be opened, those that
    /// stayed open are closed, and it is tried again.
    fn read(&mut self, alloc: Global, path: &[u8], limit: u32) -> Result<Text, VaultFault>
        ensures bound { IfOk result (λ text. length text ≤ limit) }
        ensures faults { self.old.faults ≤ self.new.faults }
        ensures fault { result ≡ Err VaultFault.Failed →
            self.new ≡ record self.old { faults = next_count self.old.faults } }
        ensures stays { result ≢ Err VaultFault.Failed → self.new ≡ self.old }
        ensures not_text { ¬ (IsUtf8 path.now) → result ≡ Err VaultFault.Failed }
    {
        let result = self.file_bytes(alloc, path, limit);
        if let Err(VaultFault::Failed) = result {
            self.faults = self.faults.saturating_add(1);
        }
        result
    }

    /// Whether the path is a directory, even an empty one; not if there is a file or nothing. Any other error of the
    /// system is Failed.
    fn folder(&mut self, alloc: Global, path: &[u8]) -> Result<bool, ReplaceFault>
        ensures faults { self.old.faults ≤ self.new.faults }
        ensures fault { result ≡ Err ReplaceFault.Failed →
            self.new ≡ record self.old { faults = next_count self.old.faults } }
        ensures stays { result ≢ Err ReplaceFault.Failed → self.new ≡ self.old }
        ensures not_text { ¬ (IsUtf8 path.now) → result ≡ Err ReplaceFault.Failed }
    {
        let result = names_directory(&self.rt, alloc, self.root.bytes(), path);
        if let Err(ReplaceFault::Failed) = result {
            self.faults = self.faults.saturating_add(1);
        }
        result
    }

    /// Writes a new file beside the old one, under a name that no other writer has
    /// (`NAME.N.pamsess-new`), and renames it to the path; a link is replaced itself. The new file
    /// gets the old one's owner, group and mode before a byte is written; if that isn't possible,
    /// Failed is returned and the old file stays, as it does if a lock was taken and not let go, and
    /// its file was removed since, another one writes, or the file isn't the one that was read last
    /// under it. Without an old file, only its owner may read the new one. The file is synced before
    /// the rename and its directory after it; if only the last sync fails, Failed is returned
    /// although the new file is there.
    fn replace(&mut self, alloc: Global, path: &[u8], bytes: &[u8]) -> Result<(), ReplaceFault>
        ensures faults { self.old.faults ≤ self.new.faults }
        ensures fault { result ≡ Err ReplaceFault.Failed →
            self.new ≡ record self.old { faults = next_count self.old.faults } }
        ensures stays { result ≢ Err ReplaceFault.Failed → self.new ≡ self.old }
        ensures not_text { ¬ (IsUtf8 path.now) → result ≡ Err ReplaceFault.Failed }
        ensures too_long { MAX_FILE < length bytes.now → result ≡ Err ReplaceFault.Failed }
    {
        let result = self.put_whole(alloc, path, bytes);
        if let Err(ReplaceFault::Failed) = result {
            self.faults = self.faults.saturating_add(1);
        }
        result
    }

    /// Locks the file at this path, which is made if it doesn't exist, and tries for 15 seconds, at intervals of 5
    /// milliseconds at most. If its directory doesn't exist, nothing is locked. A path that isn't
    /// UTF-8, what isn't a file, and any other error are Failed.
    fn hold(&mut self, alloc: Global, path: &[u8], kind: LockKind) -> Result<FileLock, ReplaceFault>
        ensures held { IfOk result (λ held. held ≡ true) }
        ensures faults { self.old.faults ≤ self.new.faults }
        ensures fault { result ≡ Err ReplaceFault.Failed →
            self.new ≡ record self.old {
              faults = next_count self.old.faults;
              locked = self.new.locked;
            } }
        ensures stays { result ≢ Err ReplaceFault.Failed →
            self.new ≡ record self.old { locked = self.new.locked } }
        ensures not_text { ¬ (IsUtf8 path.now) → result ≡ Err ReplaceFault.Failed }
    {
        let result = self.take_lock(alloc, path, kind);
        if let Err(ReplaceFault::Failed) = result {
            self.faults = self.faults.saturating_add(1);
        }
        result
    }

    /// Closes the file that is locked. A record lock that isn't let go here ends with the next `hold`, and with the store.
    fn let_go(&mut self, _held: FileLock)
        ensures { self.new ≡ record self.old { locked = false } }
    {
        drop(self.lock.take());
    }
}

impl FolderVault {
    // Files in /proc have a size of 0 although they have content.
    fn file_bytes(&mut self, alloc: Global, path: &[u8], limit: u32) -> Result<Text, VaultFault>
        ensures bound { IfOk result (λ text. length text ≤ limit) }
        ensures not_text { ¬ (IsUtf8 path.now) → result ≡ Err VaultFault.Failed }
        ensures stays { self.new ≡ self.old }
    {
        let name = str::from_utf8(path).map_err(|_| VaultFault::Failed)?;
        let root = self.root.bytes();
        let (held, size) = match open_file(&self.rt, alloc, root, &mut self.held, name) {
            Ok(Some(open)) => open,
            Ok(None) => {
                note_read(&mut self.lock, alloc, path, None)?;
                return Err(VaultFault::Absent);
            }
            Err(error) => return Err(reading_fault(&error)),
        };
        note_read(&mut self.lock, alloc, path, Some(&held.then))?;
        let mut source = ReaderSource::new(ReadAt {
            file: &held.file,
            offset: 0,
        });
        let text = match size {
            0 => read_to_limit(alloc, &mut source, &mut self.piece, limit)?,
            size => read_of_size(alloc, &mut source, &mut self.piece, limit, size)?,
        };
        put_held(&mut self.held, held);
        Ok(text)
    }

    fn put_whole(&mut self, alloc: Global, path: &[u8], bytes: &[u8]) -> Result<(), ReplaceFault>
        ensures not_text { ¬ (IsUtf8 path.now) → result ≡ Err ReplaceFault.Failed }
        ensures too_long { MAX_FILE < length bytes.now → result ≡ Err ReplaceFault.Failed }
        ensures stays { self.new ≡ self.old }
    {
        let name = str::from_utf8(path).map_err(|_| ReplaceFault::Failed)?;
        if bytes.len() > MAX_FILE as usize {
            return Err(ReplaceFault::Failed);
        }
        let new = Replacement {
            root: self.root.bytes(),
            name,
            lock: &self.lock,
            bytes,
        };
        let done = match replace_in(&self.rt, alloc, &new) {
            Err(error) if is_full(&error) && !self.held.is_empty() => {
                self.held.clear();
                replace_in(&self.rt, alloc, &new)
            }
            done => done,
        };
        done.map_err(|error| changing_fault(&error))
    }

    fn take_lock(
        &mut self,
        alloc: Global,
        path: &[u8],
        kind: LockKind,
    ) -> Result<FileLock, ReplaceFault>
        ensures held { IfOk result (λ held. held ≡ true) }
        ensures not_text { ¬ (IsUtf8 path.now) → result ≡ Err ReplaceFault.Failed }
        ensures stays { self.new ≡ record self.old { locked = self.new.locked } }
    {
        let name = str::from_utf8(path).map_err(|_| ReplaceFault::Failed)?;
        self.lock_named(alloc, name, kind)
    }

    fn lock_named(
        &mut self,
        alloc: Global,
        name: &str,
        kind: LockKind,
    ) -> Result<FileLock, ReplaceFault>
        ensures held { IfOk result (λ held. held ≡ true) }
        ensures stays { self.new ≡ record self.old { locked = self.new.locked } }
    {
        self.lock = None;
        let root = self.root.bytes();
        let locked = match hold_in(&self.rt, alloc, root, name, kind) {
            Err(error) if is_full(&error) && !self.held.is_empty() => {
                self.held.clear();
                hold_in(&self.rt, alloc, root, name, kind)
            }
            locked => locked,
        };
        match locked {
            Ok(Some((file, lock))) => {
                self.lock = Some(lock);
                Ok(FileLock::of_file(&self.rt, Some(file)))
            }
            Ok(None) => Ok(FileLock::of_file(&self.rt, None)),
            Err(error) => Err(changing_fault(&error)),
        }
    }
}

// What is read while a lock is held is noted beside the lock.
fn note_read(
    lock: &mut Option<LockAt>,
    alloc: Global,
    path: &[u8],
    found: Option<&Metadata>,
) -> Result<(), VaultFault>
    ensures { is_some lock.new ≡ is_some lock.old }
{
    match lock {
        Some(lock) => Ok(lock.note_read(alloc, path, found)?),
        None => Ok(()),
    }
}

// Why a file isn't read.
fn reading_fault(error: &io::Error) -> VaultFault {
    if is_out_of_memory(error) {
        return VaultFault::NoMemory;
    }
    opening_fault(error.kind())
}

// Why a file isn't opened.
fn opening_fault(kind: ErrorKind) -> VaultFault
    ensures absent { result ≡ VaultFault.Absent ↔ kind ≡ ErrorKind.NotFound }
    ensures otherwise { result ≢ VaultFault.Absent → result ≡ VaultFault.Failed }
{
    match kind {
        ErrorKind::NotFound => VaultFault::Absent,
        _ => VaultFault::Failed,
    }
}

// Why a file isn't replaced or locked, or a directory looked up.
fn changing_fault(error: &io::Error) -> ReplaceFault {
    if is_out_of_memory(error) {
        return ReplaceFault::NoMemory;
    }
    ReplaceFault::Failed
}

// Whether an allocation failed. If it is the system that has no memory, that is a failure of the outside.
fn is_out_of_memory(error: &io::Error) -> bool {
    error.kind() == ErrorKind::OutOfMemory && error.raw_os_error().is_none()
}

fn names_directory(
    rt: &HostRuntime,
    alloc: Global,
    root: &[u8],
    path: &[u8],
) -> Result<bool, ReplaceFault>
    ensures { ¬ (IsUtf8 path.now) → result ≡ Err ReplaceFault.Failed }
{
    let name = str::from_utf8(path).map_err(|_| ReplaceFault::Failed)?;
    match look_in(rt, alloc, root, name) {
        Ok(place) => Ok(place.found.is_some_and(|found| found.is_dir())),
        Err(error) if error.kind() == ErrorKind::NotFound => Ok(false),
        Err(error) => Err(changing_fault(&error)),
    }
}
