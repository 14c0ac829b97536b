use crate::lock::{LockAt, is_at};
use crate::system::leads_to;
use std::alloc::Global;
use std::fs::{self, File, Metadata, OpenOptions, symlink_metadata};
use std::io::{self, ErrorKind, Write};
use std::os::unix::fs::{MetadataExt, OpenOptionsExt, fchown};
use std::rt::Files;

/// What a file is replaced by.
#[derive(Clone, Copy)]
pub(crate) struct Replacement<'a> {
    pub(crate) root: &'a [u8],
    /// The path below the root.
    pub(crate) name: &'a str,
    /// The lock that was taken for it.
    pub(crate) lock: &'a Option<LockAt>,
    pub(crate) bytes: &'a [u8],
}

/// Writes a file beside the old one and renames it to the path, so that the path never names a
/// partly written file, even if others write it, too.
///
/// If a lock was taken for it, the path isn't touched if the lock's file was removed since: others may have the lock,
/// too. Among those only one at a time writes, since it has the first name beside the path; and none replaces a file that
/// isn't the one that it read.
pub(crate) fn replace_beside(
    rt: &HostRuntime,
    alloc: Global,
    path: &str,
    new: &Replacement,
) -> io::Result<()> {
    for number in 0..TRIES {
        let beside = name_beside(alloc, path, number)?;
        let _ = remove_unlocked(rt, beside.as_str());
        if let Some(file) = made(rt, beside.as_str())? {
            for other in number + 1..FEW {
                if let Ok(other) = name_beside(alloc, path, other) {
                    let _ = remove_unlocked(rt, other.as_str());
                }
            }
            return write_and_rename(rt, alloc, file, beside.as_str(), path, new);
        }
        if new.lock.is_some() && is_file(rt, beside.as_str()) {
            return Err(ErrorKind::Other.into());
        }
    }
    Err(ErrorKind::AlreadyExists.into())
}

// The number of names that are tried: so many may write a file at the same time.
const TRIES: u32 = 1024;

// The number of names that are always looked at for what a killed writer left.
const FEW: u32 = 4;

// Whether the path names a regular file: a live writer's, if it could be neither removed nor made.
fn is_file(rt: &HostRuntime, path: &str) -> bool {
    match symlink_metadata(rt, path) {
        Ok(found) => found.is_file(),
        Err(_) => false,
    }
}

// The name of a file that is being written.
fn name_beside(alloc: Global, path: &str, number: u32) -> io::Result<String> {
    Ok(format!(in alloc; "{path}.{number}.pamsess-new")?)
}

// A new file that only its owner may read, locked until it is closed; None if the name is taken.
// Processes that remove the files of killed writers take the lock first, so a file that is locked
// and still has its name stays.
fn made(rt: &HostRuntime, beside: &str) -> io::Result<Option<File>> {
    let file = OpenOptions::new()
        .write(true)
        .create_new(true)
        .mode(0o600)
        .open(rt, beside);
    match file {
        Ok(file) => {
            let is_ours = match file.try_lock() {
                Ok(()) => is_at(rt, &file, beside).unwrap_or(false),
                Err(_) => false,
            };
            Ok(if is_ours { Some(file) } else { None })
        }
        Err(error) if error.kind() == ErrorKind::AlreadyExists => Ok(None),
        Err(error) => Err(error),
    }
}

// If it fails before the rename, the new file is removed while it is still locked. If only the last sync fails, the new
// file has the name and nobody knows whether it will after a power cut: then an error is returned,
// too, since success means that the file is on the disk.
fn write_and_rename(
    rt: &HostRuntime,
    alloc: Global,
    mut file: File,
    beside: &str,
    path: &str,
    new: &Replacement,
) -> io::Result<()> {
    match put_in_place(rt, alloc, &mut file, beside, path, new) {
        Ok(directory) => directory.sync_all(),
        Err(error) => {
            let _ = rt.remove_file(beside);
            Err(error)
        }
    }
}

// The file that is replaced, which has to be the one that was read under the lock.
fn old_file(rt: &HostRuntime, alloc: Global, new: &Replacement) -> io::Result<Option<Metadata>> {
    let old = leads_to(rt, alloc, new.root, new.name)?;
    match new.lock {
        Some(lock) if !lock.is_as_read(new.name.as_bytes(), &old) => Err(ErrorKind::Other.into()),
        _ => Ok(old),
    }
}

// The file may hold secrets: it has the owner, the group and the mode of the one that it replaces before a byte is
// written, and its bytes are on the disk before it has the name. Returns its directory, which is to be synced.
fn put_in_place(
    rt: &HostRuntime,
    alloc: Global,
    file: &mut File,
    beside: &str,
    path: &str,
    new: &Replacement,
) -> io::Result<File> {
    if let Some(old) = old_file(rt, alloc, new)? {
        if !old.is_file() {
            return Err(ErrorKind::Unsupported.into());
        }
        fchown(&*file, Some(old.uid()), Some(old.gid()))?;
        file.set_permissions(old.permissions())?;
    }
    file.write_all(new.bytes)?;
    file.sync_all()?;
    let directory = File::open(rt, directory_of(path))?;
    if let Some(lock) = new.lock {
        if !lock.still_holds(rt) {
            return Err(ErrorKind::Other.into());
        }
    }
    rt.rename(beside, path)?;
    Ok(directory)
}

// Removes what a killed writer left: nobody has its lock.
fn remove_unlocked(rt: &HostRuntime, path: &str) -> io::Result<()> {
    if !symlink_metadata(rt, path)?.is_file() {
        return Ok(());
    }
    let file = fs::open(rt, path)?;
    match file.try_lock() {
        Ok(()) if is_at(rt, &file, path)? => rt.remove_file(path),
        _ => Ok(()),
    }
}

// The directory that a file is in.
fn directory_of(path: &str) -> &str {
    match path.rsplit_once('/') {
        Some(("", _)) => "/",
        Some((directory, _)) => directory,
        None => ".",
    }
}
