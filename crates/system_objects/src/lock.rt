use pam_base::{NoMemory, Text};
use pam_outside::LockKind;
use sqlite_disk::{Files, Unknown};
use sqlite_std_file::OpenError;
use std::alloc::Global;
use std::fs::{self, File, Metadata, OpenOptions, TryLockError, symlink_metadata};
use std::io::{self, ErrorKind};
use std::os::unix::fs::{MetadataExt, OpenOptionsExt};
use std::thread;
use std::time::Duration;

/// Where a lock was taken: its path, and the file that it named then; and which file was read last since.
#[derive(Drop)]
pub(crate) struct LockAt {
    path: String,
    then: Metadata,
    read: Option<ReadFile>,
    /// The lock itself, if it is a record lock. It ends when this is dropped, and with the process.
    _record: Option<Record>,
}

/// The database files of Rattle's library lock a file as lckpwdf(3) does, by fcntl(2), and nothing else that a crate may
/// use does. No byte of the file is read or written.
type Record = Files<sqlite_std_file::File>;

/// An open file that is locked, and its state then. A lock of the whole file ends when the file is closed, and with the
/// process.
#[derive(Drop)]
pub(crate) struct Taken {
    pub(crate) file: File,
    pub(crate) then: Metadata,
    record: Option<Record>,
}

// A path that was read, and the file that it led to, if there was one.
#[derive(Drop)]
struct ReadFile {
    path: Text,
    found: Option<FileStamp>,
}

/// A file as it was when it was looked at. Writing it, and changing its owner or mode, changes its ctime.
#[derive(Clone, Copy)]
pub(crate) struct FileStamp {
    device: u64,
    inode: u64,
    changed: i64,
    nanoseconds: i64,
}

impl FileStamp {
    pub(crate) fn of(found: &Metadata) -> FileStamp {
        FileStamp {
            device: found.dev(),
            inode: found.ino(),
            changed: found.ctime(),
            nanoseconds: found.ctime_nsec(),
        }
    }

    /// Whether it is still as it was.
    pub(crate) fn is(&self, now: &Metadata) -> bool {
        self.device == now.dev()
            && self.inode == now.ino()
            && self.changed == now.ctime()
            && self.nanoseconds == now.ctime_nsec()
    }
}

impl LockAt {
    /// The open file that was locked at this path, and where.
    pub(crate) fn new(path: String, taken: Taken) -> (File, LockAt) {
        let at = LockAt {
            path,
            then: taken.then,
            read: None,
            _record: taken.record,
        };
        (taken.file, at)
    }

    /// Notes which file was read while the lock was held.
    pub(crate) fn note_read(
        &mut self,
        alloc: Global,
        path: &[u8],
        found: Option<&Metadata>,
    ) -> Result<(), NoMemory> {
        let path = Text::from_bytes(alloc, path)?;
        let found = match found {
            Some(found) => Some(FileStamp::of(found)),
            None => None,
        };
        self.read = Some(ReadFile { path, found });
        Ok(())
    }

    /// Whether the path leads to the file that was read, if it was the one that was read last; else true.
    pub(crate) fn is_as_read(&self, path: &[u8], now: &Option<Metadata>) -> bool {
        match &self.read {
            Some(read) if read.path.bytes() == path => match (&read.found, now) {
                (Some(then), Some(now)) => then.is(now),
                (None, None) => true,
                _ => false,
            },
            _ => true,
        }
    }

    /// Whether the path still names the file. If not, another process may have the lock, too.
    pub(crate) fn still_holds(&self, rt: &HostRuntime) -> bool {
        match symlink_metadata(rt, self.path.as_str()) {
            Ok(now) => is_one(&self.then, &now),
            Err(_) => false,
        }
    }
}

/// The number of attempts at a lock. The waits between them are 15 seconds in all, as in lckpwdf(3).
const TRIES: u32 = 3_002;

/// The longest wait between two attempts, in milliseconds. The first waits are 1, 2 and 4.
const LONGEST: u64 = 5;

/// Locks the file at this path, which is made if it doesn't exist; tries for 15 seconds. If the first attempt finds that
/// its directory doesn't exist, None is returned. What isn't a regular file, and a directory that
/// disappears later, are errors.
pub(crate) fn locked(rt: &HostRuntime, path: &str, kind: LockKind) -> io::Result<Option<Taken>> {
    let Some(mut file) = if_present(open_or_create(rt, path))? else {
        return Ok(None);
    };
    let mut pause = 1u64;
    for _ in 0..TRIES {
        file = match file {
            Some(open) if is_still_at(rt, &open, path)? => {
                match attempt(rt, open, path, kind)? {
                    Outcome::Taken(taken) => return Ok(Some(taken)),
                    Outcome::Waits(open) => Some(open),
                }
            }
            _ => None,
        };
        thread::sleep(rt, Duration::from_millis(pause));
        pause = pause.saturating_mul(2).min(LONGEST);
        file = match file {
            Some(open) => Some(open),
            None => open_again(rt, path)?,
        };
    }
    Err(ErrorKind::WouldBlock.into())
}

// As `open_or_create`, but a directory that doesn't exist any more isn't one that has nothing to lock.
fn open_again(rt: &HostRuntime, path: &str) -> io::Result<Option<File>> {
    match open_or_create(rt, path) {
        Err(error) if error.kind() == ErrorKind::NotFound => Err(ErrorKind::Other.into()),
        other => other,
    }
}

// The result of an attempt. The file stays open while it waits.
#[derive(Drop)]
enum Outcome {
    Taken(Taken),
    Waits(File),
}

// Another open of the file has the lock, or the path doesn't name the file any more, if it waits.
fn attempt(rt: &HostRuntime, file: File, path: &str, kind: LockKind) -> io::Result<Outcome> {
    let (is_taken, record) = match kind {
        LockKind::Record => match record_lock(rt, path)? {
            Some(record) => (true, Some(record)),
            None => (false, None),
        },
        LockKind::Whole => (is_whole_locked(&file)?, None),
    };
    if !is_taken || !is_still_at(rt, &file, path)? {
        return Ok(Outcome::Waits(file));
    }
    let then = file.metadata()?;
    Ok(Outcome::Taken(Taken { file, then, record }))
}

fn is_whole_locked(file: &File) -> io::Result<bool> {
    match file.try_lock() {
        Ok(()) => Ok(true),
        Err(TryLockError::WouldBlock) => Ok(false),
        Err(TryLockError::Error(error)) => Err(error),
    }
}

// None if another open of the file has the lock, or the path names none.
fn record_lock(rt: &HostRuntime, path: &str) -> io::Result<Option<Record>> {
    match sqlite_std_file::open(rt, path, Unknown) {
        Ok(record) => {
            remove_log(rt, path)?;
            Ok(Some(record))
        }
        Err(OpenError::Busy) => Ok(None),
        Err(OpenError::Io(error)) if error.kind() == ErrorKind::NotFound => Ok(None),
        Err(OpenError::Io(error)) => Err(error),
        Err(OpenError::OutOfMemory) => Err(ErrorKind::OutOfMemory.into()),
        Err(OpenError::HotJournal) => Err(ErrorKind::Other.into()),
    }
}

// The file that Rattle's library makes beside a database. Only the process that has the lock uses it.
fn remove_log(rt: &HostRuntime, path: &str) -> io::Result<()> {
    let log = format!(in rt.alloc(); "{path}-wal")?;
    match fs::remove_file(rt, log.as_str()) {
        Err(error) if error.kind() != ErrorKind::NotFound => Err(error),
        _ => Ok(()),
    }
}

// Opens a regular file, or makes one that only its owner may open: anyone who may open it may lock
// it. None if it was removed in between.
fn open_or_create(rt: &HostRuntime, path: &str) -> io::Result<Option<File>> {
    let made = OpenOptions::new()
        .read(true)
        .write(true)
        .create_new(true)
        .mode(0o600)
        .open(rt, path);
    match made {
        Err(error) if error.kind() == ErrorKind::AlreadyExists => open_present(rt, path),
        other => Ok(Some(other?)),
    }
}

fn open_present(rt: &HostRuntime, path: &str) -> io::Result<Option<File>> {
    match if_present(symlink_metadata(rt, path))? {
        Some(found) if found.is_file() => {
            if_present(OpenOptions::new().read(true).write(true).open(rt, path))
        }
        Some(_) => Err(ErrorKind::Unsupported.into()),
        None => Ok(None),
    }
}

/// None if there is no such file or directory.
pub(crate) fn if_present<T: Drop>(found: io::Result<T>) -> io::Result<Option<T>> {
    match found {
        Err(error) if error.kind() == ErrorKind::NotFound => Ok(None),
        other => Ok(Some(other?)),
    }
}

// Whether the path still names the file that is open.
fn is_still_at(rt: &HostRuntime, file: &File, path: &str) -> io::Result<bool> {
    Ok(if_present(is_at(rt, file, path))?.unwrap_or(false))
}

/// Whether the path names the file that is open, by device and inode. An error of the system is returned.
pub(crate) fn is_at(rt: &HostRuntime, file: &File, path: &str) -> io::Result<bool> {
    Ok(is_one(&file.metadata()?, &symlink_metadata(rt, path)?))
}

/// Whether these are of one file.
pub(crate) fn is_one(some: &Metadata, other: &Metadata) -> bool {
    some.dev() == other.dev() && some.ino() == other.ino()
}
