ghost use Rattle.std.specs.Prelude.{◌≡◌, false, true};

use std::fs::File;
use std::marker::Model;

/// Which lock keeps other writers of a file out.
#[derive(Clone, Copy, Debug)]
pub enum LockKind {
    /// A record lock by fcntl(2), which keeps out other programs that lock the file as lckpwdf(3)
    /// does.
    Record,
    /// A lock of the whole file by flock(2).
    Whole,
}

/// A lock on files, held until it is let go or dropped. Contracts know whether a call of `Vault` took it.
#[derive(Drop)]
pub struct FileLock {
    // The lock ends when the file is closed, and with the process.
    _file: Option<File>,
    is_taken: bool,
}

impl Model for FileLock {
    ghost use Rattle.std.specs.Prelude.{Bool};

    ghost Value = { Bool };

    ghost view = { λ h. h.is_taken };
}

impl FileLock {
    /// Nothing is locked, and no call was made.
    pub fn nothing() -> FileLock
        ensures { result ≡ false }
    {
        FileLock {
            _file: None,
            is_taken: false,
        }
    }

    /// The lock that a call of a store over real files took on an open file; None if there was nothing to lock. Only
    /// who has the runtime can make one.
    pub fn of_file(_rt: &HostRuntime, file: Option<File>) -> FileLock
        ensures { result ≡ true }
    {
        FileLock {
            _file: file,
            is_taken: true,
        }
    }

    // A lock that a store in memory has noted.
    pub(crate) fn in_memory() -> FileLock
        ensures { result ≡ true }
    {
        FileLock {
            _file: None,
            is_taken: true,
        }
    }

    pub(crate) fn is_taken(&self) -> bool
        ensures { result ≡ self.now }
    {
        self.is_taken
    }
}
