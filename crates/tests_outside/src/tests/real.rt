use super::{bytes_of, read_some};
use pam_base::Failed;
use pam_outside::{
    Clock, LockKind, MAX_FILE, ReplaceFault, Sink, Vault, VaultFault, current_moment, random_word,
    set_moment, set_word, write_all,
};
use std::io::{self, ErrorKind, Read};
use std::path::PathBuf;
use std::random::RandomSource;
use std::test::Fail;
use std::time::Duration;
use std::{env, fs, process};
use system_objects::{FolderVault, ReaderSource, RealClock, WriterSink, system_moment};

// A reader whose second read fails.
#[derive(Drop)]
struct Interrupted {
    reads: u8,
}

impl Read for Interrupted {
    fn read(&mut self, into: &mut [u8]) -> io::Result<usize> {
        self.reads = self.reads.saturating_add(1);
        if self.reads == 2 {
            return Err(io::Error::from(ErrorKind::TimedOut));
        }
        match into.first_mut() {
            Some(byte) => {
                *byte = b'x';
                Ok(1)
            }
            None => Ok(0),
        }
    }
}

// A system whose clock shows this second, or has an error, and that has no random words.
#[derive(Clone, Copy)]
struct Stopped {
    second: Option<u64>,
}

impl std::rt::Clock for Stopped {
    fn monotonic(&self) -> io::Result<Duration> {
        Err(io::Error::from(ErrorKind::Unsupported))
    }

    fn since_1970(&self) -> io::Result<Duration> {
        match self.second {
            Some(second) => Ok(Duration::from_secs(second)),
            None => Err(io::Error::from(ErrorKind::Unsupported)),
        }
    }
}

impl RandomSource for Stopped {
    fn fill_bytes(&self, _buf: &mut [u8]) -> io::Result<()> {
        Err(io::Error::from(ErrorKind::Unsupported))
    }
}

#[test]
fn a_reader_is_a_source(rt: HostRuntime) -> Result<(), Fail> {
    let mut text = Vec::new(rt.alloc());
    let mut source = ReaderSource::new(b"abcd".as_slice());
    for want in [Ok(3), Ok(1), Ok(0)] {
        assert_eq!(rt; read_some(&mut source, &mut text)?, want);
    }
    assert_eq!(rt; text.as_slice(), b"abcd".as_slice());
    Ok(())
}

#[test]
fn a_reader_that_fails_once_is_a_source_that_does(rt: HostRuntime) -> Result<(), Fail> {
    let mut text = Vec::new(rt.alloc());
    let mut source = ReaderSource::new(Interrupted { reads: 0 });
    for want in [Ok(1), Err(Failed), Ok(1)] {
        assert_eq!(rt; read_some(&mut source, &mut text)?, want);
    }
    Ok(())
}

#[test]
fn a_writer_is_a_sink_and_fails_where_it_is_full(rt: HostRuntime) -> Result<(), Fail> {
    let mut written = Vec::new(rt.alloc());
    let mut sink = WriterSink::new(&mut written);
    assert_eq!(rt; write_all(&mut sink, b"abc"), Ok(()));
    assert_eq!(rt; sink.write(b"d"), Ok(1));
    assert_eq!(rt; written.as_slice(), b"abcd".as_slice());
    let mut room = [0u8; 3];
    let mut sink = WriterSink::new(room.as_mut_slice());
    assert_eq!(rt; write_all(&mut sink, b"abcd"), Err(Failed));
    assert_eq!(rt; room.as_slice(), b"abc".as_slice());
    Ok(())
}

#[test]
fn a_real_clock_keeps_the_time_that_it_is_set_to_and_its_words_differ(
    rt: HostRuntime,
) -> Result<(), Fail> {
    let mut clock: Box<dyn Clock> = Box::new(rt.alloc(), RealClock::new(rt))?;
    let before = current_moment(&clock);
    // after 2020 and before 2100
    assert!(rt; 1_577_836_800 < before && before < 4_102_444_800);
    set_moment(&mut clock, 1);
    assert_eq!(rt; current_moment(&clock), 1);
    set_word(&mut clock, 0);
    assert_ne!(rt; random_word(&mut *clock), random_word(&mut *clock));
    assert_eq!(rt; current_moment(&clock), 1);
    Ok(())
}

#[test]
fn the_system_s_time_is_0_at_an_error_and_no_later_than_the_last_moment(
    rt: HostRuntime,
) -> Result<(), Fail> {
    assert_eq!(rt; system_moment(&Stopped { second: None }), 0);
    for (second, moment) in [
        (1_000_000_000_000, 1_000_000_000_000),
        (1_000_000_000_001, 1_000_000_000_000),
    ] {
        let stopped = Stopped {
            second: Some(second),
        };
        assert_eq!(rt; system_moment(&stopped), moment);
    }
    let mut clock: Box<dyn Clock> = Box::new(rt.alloc(), RealClock::new(Stopped { second: None }))?;
    assert_eq!(rt; current_moment(&clock), 0);
    assert_eq!(rt; random_word(&mut *clock), 0);
    Ok(())
}

// An empty directory of its own for a test with this name.
pub(super) fn new_folder(rt: HostRuntime, name: &str) -> Result<PathBuf, Fail> {
    let alloc = rt.alloc();
    let id = process::id(rt.process());
    let name = format!(in alloc; "outside_tests_{name}_{id}")?;
    let folder = env::temp_dir(&rt)?.join(alloc, name.as_str())?;
    let _ = fs::remove_dir_all(&rt, folder.as_path());
    fs::create_dir(&rt, folder.as_path())?;
    Ok(folder)
}

/// The limit of the reads.
const LIMIT: u32 = 10_000;

#[test]
fn real_files_are_read_whole_or_refused(rt: HostRuntime) -> Result<(), Fail> {
    let alloc = rt.alloc();
    let folder = new_folder(rt, "read")?;
    let most = vec![in alloc; b'x'; LIMIT as usize]?;
    let more = vec![in alloc; b'x'; LIMIT as usize + 1]?;
    fs::create_dir(&rt, folder.join(alloc, "pam.d")?.as_path())?;
    for (name, bytes) in [
        ("common", b"front".as_slice()),
        ("most", most.as_slice()),
        ("more", more.as_slice()),
    ] {
        fs::write(&rt, folder.join(alloc, name)?.as_path(), bytes)?;
    }
    let long = "longer-than-a-name-may-be-".repeat(alloc, 20)?;
    let mut vault = FolderVault::new(rt);
    for (name, want, is_directory) in [
        ("common", Ok(b"front".as_slice()), Ok(false)),
        ("most", Ok(most.as_slice()), Ok(false)),
        ("more", Err(VaultFault::TooLong), Ok(false)),
        ("absent/below", Err(VaultFault::Absent), Ok(false)),
        ("pam.d", Err(VaultFault::Failed), Ok(true)),
        (
            "common/below",
            Err(VaultFault::Failed),
            Err(ReplaceFault::Failed),
        ),
        (
            "common\0",
            Err(VaultFault::Failed),
            Err(ReplaceFault::Failed),
        ),
        (
            long.as_str(),
            Err(VaultFault::Failed),
            Err(ReplaceFault::Failed),
        ),
    ] {
        let path = folder.join(alloc, name)?;
        let read = vault.read(alloc, path.as_str().as_bytes(), LIMIT);
        assert_eq!(rt; bytes_of(&read), want, "at {name}");
        let found = vault.folder(alloc, path.as_str().as_bytes());
        assert_eq!(rt; found, is_directory, "at {name}");
    }
    let read = vault.read(alloc, b"/tmp/\xff", LIMIT);
    assert_eq!(rt; bytes_of(&read), Err(VaultFault::Failed));
    assert_eq!(rt;
        vault.folder(alloc, b"/tmp/\xff"),
        Err(ReplaceFault::Failed)
    );
    fs::remove_dir_all(&rt, folder.as_path())?;
    Ok(())
}

#[test]
fn real_files_that_are_not_replaced_leave_nothing(rt: HostRuntime) -> Result<(), Fail> {
    let alloc = rt.alloc();
    let folder = new_folder(rt, "refuse")?;
    fs::create_dir(&rt, folder.join(alloc, "pam.d")?.as_path())?;
    let mut vault = FolderVault::new(rt);
    for name in ["pam.d", "absent/below"] {
        let path = folder.join(alloc, name)?;
        let refused = vault.replace(alloc, path.as_str().as_bytes(), b"short");
        assert_eq!(rt; refused, Err(ReplaceFault::Failed), "at {name}");
    }
    let refused = vault.replace(alloc, b"/tmp/\xff", b"short");
    assert_eq!(rt; refused, Err(ReplaceFault::Failed));
    assert_eq!(rt; names_in(rt, &folder)?, 1);
    fs::remove_dir_all(&rt, folder.as_path())?;
    Ok(())
}

// A lock's file may have a second name, as a copy of a tree by links makes it; Rattle's library takes no record lock then.
#[test]
fn a_record_lock_s_file_has_one_name(rt: HostRuntime) -> Result<(), Fail> {
    let folder = new_folder(rt, "names")?;
    let lock = folder.join(rt.alloc(), "lock")?;
    fs::write(&rt, lock.as_path(), "")?;
    fs::hard_link(
        &rt,
        lock.as_path(),
        folder.join(rt.alloc(), "other")?.as_path(),
    )?;
    let mut vault = FolderVault::new(rt);
    for (kind, is_held) in [(LockKind::Record, false), (LockKind::Whole, true)] {
        let held = vault.hold(rt.alloc(), lock.as_str().as_bytes(), kind);
        assert_eq!(rt; held.is_ok(), is_held, "by {kind:?}");
    }
    fs::remove_dir_all(&rt, folder.as_path())?;
    Ok(())
}

#[test]
fn more_than_can_be_read_is_not_written(rt: HostRuntime) -> Result<(), Fail> {
    let alloc = rt.alloc();
    let folder = new_folder(rt, "large")?;
    let path = folder.join(alloc, "large")?;
    let most = vec![in alloc; b'x'; MAX_FILE as usize]?;
    let more = vec![in alloc; b'y'; MAX_FILE as usize + 1]?;
    let mut vault = FolderVault::new(rt);
    let name = path.as_str().as_bytes();
    assert_eq!(rt; vault.replace(alloc, name, most.as_slice()), Ok(()));
    let refused = vault.replace(alloc, name, more.as_slice());
    assert_eq!(rt; refused, Err(ReplaceFault::Failed));
    let read = vault.read(alloc, name, MAX_FILE);
    assert_eq!(rt; bytes_of(&read) == Ok(most.as_slice()), true);
    assert_eq!(rt; names_in(rt, &folder)?, 1);
    fs::remove_dir_all(&rt, folder.as_path())?;
    Ok(())
}

// How many names a directory has.
pub(super) fn names_in(rt: HostRuntime, folder: &PathBuf) -> Result<usize, Fail> {
    let mut names = 0usize;
    for entry in fs::read_dir(&rt, folder.as_path())? {
        let _ = entry?;
        names = names.saturating_add(1);
    }
    Ok(names)
}
