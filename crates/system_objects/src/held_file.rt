use crate::lock::FileStamp;
use crate::system::{is_full, is_same, look_in};
use pam_base::Text;
use std::alloc::Global;
use std::fs::{self, File, Metadata};
use std::io::{self, ErrorKind};
use std::os::unix::fs::MetadataExt;

/// The number of files that stay open.
const MOST: usize = 8;

/// The permission bits that allow the owner, the group and all others to read a file.
const EVERYBODY: u32 = 0o444;

/// A file that was opened by a path, and its state then. As long as it is open, no other file has its device and inode.
#[derive(Drop)]
pub(crate) struct HeldFile {
    pub(crate) path: Text,
    pub(crate) then: Metadata,
    pub(crate) file: File,
}

/// How often a file is opened if it changes between a look at it and its opening.
const OPEN_TRIES: u32 = 64;

/// The file, open, and its size; None if there is none. It is looked at before it is opened, since opening anything but
/// a regular file can block, and after it: if another was put in its place in between, it is tried
/// again. The first look also finds out whether the file is among those that stay open; these are
/// closed if no more files can be opened.
pub(crate) fn open_file(
    rt: &HostRuntime,
    alloc: Global,
    root: &[u8],
    held: &mut Vec<HeldFile>,
    name: &str,
) -> io::Result<Option<(HeldFile, u64)>> {
    for _ in 0..OPEN_TRIES {
        let place = look_in(rt, alloc, root, name)?;
        let stayed = take_held(held, name.as_bytes(), &place.found);
        let Some(found) = place.found else {
            return Ok(None);
        };
        if let Some(file) = stayed {
            return Ok(Some((file, found.len())));
        }
        if !found.is_file() {
            return Err(ErrorKind::Unsupported.into());
        }
        match fs::open(rt, place.path.as_str()) {
            Ok(file) => {
                let then = file.metadata()?;
                if is_same(&found, &then) {
                    let size = then.len();
                    return Ok(Some((opened(alloc, name, then, file)?, size)));
                }
            }
            Err(error) if is_full(&error) && !held.is_empty() => held.clear(),
            Err(error) if error.kind() == ErrorKind::NotFound => return Ok(None),
            Err(error) => return Err(error),
        }
    }
    Err(ErrorKind::Other.into())
}

fn opened(alloc: Global, name: &str, then: Metadata, file: File) -> io::Result<HeldFile> {
    let path = Text::from_bytes(alloc, name.as_bytes()).map_err(|_| ErrorKind::OutOfMemory)?;
    Ok(HeldFile { path, then, file })
}

/// Takes out the file that was opened by this path, if the path still names it, with the same permissions; else it is
/// closed.
fn take_held(held: &mut Vec<HeldFile>, path: &[u8], found: &Option<Metadata>) -> Option<HeldFile> {
    for i in 0..held.len() {
        if held[i].path.bytes() == path {
            let taken = held.swap_remove(i);
            let is_same = match found {
                Some(now) => FileStamp::of(&taken.then).is(now),
                None => false,
            };
            return is_same.then_some(taken);
        }
    }
    None
}

/// Lets a file stay open; if there are too many, another one is closed. Only a regular file that everybody may read
/// stays open, so that a process that gives up its rights later keeps no secrets within reach; and
/// none of a file system that gives all files the inode number 0, since files can't be
/// distinguished there. If memory runs out, it is closed.
pub(crate) fn put_held(held: &mut Vec<HeldFile>, file: HeldFile) {
    let then = &file.then;
    if !then.is_file() || then.ino() == 0 || then.mode() & EVERYBODY != EVERYBODY {
        return;
    }
    if held.len() >= MOST {
        held.swap_remove(0);
    }
    let _ = held.push(file);
}
