use crate::below::{Place, place_below};
use crate::beside::{Replacement, replace_beside};
use crate::lock::{LockAt, if_present, is_one, locked};
use pam_outside::LockKind;
use std::alloc::Global;
use std::fs::{File, Metadata, metadata};
use std::io::{self, ErrorKind};

/// Where a path leads. Without a root it is looked up by the system.
pub(crate) fn look_in(
    rt: &HostRuntime,
    alloc: Global,
    root: &[u8],
    path: &str,
) -> io::Result<Place> {
    if root.is_empty() {
        return Ok(Place {
            path: String::from_str(alloc, path)?,
            found: if_present(metadata(rt, path))?,
        });
    }
    place_below(rt, alloc, root_text(root)?, path, true)
}

/// Replaces a file. A link at the end is replaced itself, by a file with the owner and the mode of the one that it leads
/// to.
pub(crate) fn replace_in(rt: &HostRuntime, alloc: Global, new: &Replacement) -> io::Result<()> {
    if new.root.is_empty() {
        return replace_beside(rt, alloc, new.name, new);
    }
    let place = place_below(rt, alloc, root_text(new.root)?, new.name, false)?;
    replace_beside(rt, alloc, place.path.as_str(), new)
}

/// The file that a path leads to, if there is one.
pub(crate) fn leads_to(
    rt: &HostRuntime,
    alloc: Global,
    root: &[u8],
    path: &str,
) -> io::Result<Option<Metadata>> {
    match if_present(look_in(rt, alloc, root, path))? {
        Some(place) => Ok(place.found),
        None => Ok(None),
    }
}

/// Locks the file at this path, as `locked` does. A link at the end isn't followed.
pub(crate) fn hold_in(
    rt: &HostRuntime,
    alloc: Global,
    root: &[u8],
    path: &str,
    kind: LockKind,
) -> io::Result<Option<(File, LockAt)>> {
    let path = if root.is_empty() {
        String::from_str(alloc, path)?
    } else {
        match if_present(place_below(rt, alloc, root_text(root)?, path, false))? {
            Some(place) => place.path,
            None => return Ok(None),
        }
    };
    match locked(rt, path.as_str(), kind)? {
        Some(taken) => Ok(Some(LockAt::new(path, taken))),
        None => Ok(None),
    }
}

/// Whether the process, or the system, has too many files open.
pub(crate) fn is_full(error: &io::Error) -> bool {
    matches!(error.raw_os_error(), Some(EMFILE | ENFILE))
}

const ENFILE: i32 = 23;

const EMFILE: i32 = 24;

/// Whether an open file is the one that was found.
pub(crate) fn is_same(found: &Metadata, open: &Metadata) -> bool {
    open.is_file() && is_one(found, open)
}

fn root_text(root: &[u8]) -> io::Result<&str> {
    str::from_utf8(root).map_err(|_| ErrorKind::InvalidData.into())
}
