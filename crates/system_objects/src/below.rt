use std::alloc::Global;
use std::fs::{Metadata, metadata, read_link, symlink_metadata};
use std::io::{self, ErrorKind};

/// The most links that are followed on the way to a file, as Linux does.
const MOST_LINKS: u32 = 40;

/// The most steps on the way to a file. A path that the system takes has at most 4096 bytes, and so has a link.
const MOST_STEPS: u32 = 4096 * (MOST_LINKS + 1);

/// Where a path leads below a root directory.
#[derive(Drop)]
pub(crate) struct Place {
    /// No part of it is a link, except for the last one if links at the end aren't followed.
    pub(crate) path: String,
    /// What is there; None if there is nothing, though its directory exists.
    pub(crate) found: Option<Metadata>,
}

// How far the way is known, and what is left of it.
#[derive(Drop)]
struct Way {
    place: Place,
    left: String,
    links: u32,
}

/// Finds where a path leads below a root directory, as in a chroot: a link that begins with a slash begins at the root
/// directory, and `..` stops there. The path begins with the root's, which is looked up by the system. If
/// `follows` is false, a link at the end isn't followed. NotFound is returned only if a directory
/// on the way doesn't exist; a path that doesn't begin with the root's, more than 40 links, and a
/// file in the place of a directory are other errors.
pub(crate) fn place_below(
    rt: &HostRuntime,
    alloc: Global,
    root: &str,
    path: &str,
    follows: bool,
) -> io::Result<Place> {
    let left = match path.strip_prefix(root) {
        Some(left) if left.is_empty() || left.starts_with('/') => left,
        _ => return Err(ErrorKind::InvalidInput.into()),
    };
    let mut way = Way {
        place: at_root(rt, alloc, root)?,
        left: String::from_str(alloc, left)?,
        links: 0,
    };
    for _ in 0..MOST_STEPS {
        if way.left.is_empty() {
            return Ok(way.place);
        }
        way = a_step_on(rt, alloc, root, way, follows)?;
    }
    Err(ErrorKind::FilesystemLoop.into())
}

fn at_root(rt: &HostRuntime, alloc: Global, root: &str) -> io::Result<Place> {
    Ok(Place {
        path: String::from_str(alloc, root)?,
        found: Some(metadata(rt, root)?),
    })
}

// Takes the first name of what is left.
fn a_step_on(
    rt: &HostRuntime,
    alloc: Global,
    root: &str,
    way: Way,
    follows: bool,
) -> io::Result<Way> {
    let is_inner = way.left.contains('/');
    let name = first_name(way.left.as_str());
    let left = String::from_str(alloc, other_names(way.left.as_str()))?;
    if name.is_empty() || name == "." {
        return Ok(Way {
            place: way.place,
            left,
            links: way.links,
        });
    }
    if name == ".." {
        return Ok(Way {
            place: one_up(rt, alloc, root, way.place)?,
            left,
            links: way.links,
        });
    }
    let done = way.place.path.as_str();
    let next = format!(in alloc; "{done}/{name}")?;
    match symlink_metadata(rt, next.as_str()) {
        Ok(found) if found.is_symlink() && (is_inner || follows) => {
            after_link(rt, alloc, root, way.place, next, left, way.links)
        }
        Ok(found) if is_inner && !found.is_dir() => Err(ErrorKind::NotADirectory.into()),
        Ok(found) => Ok(Way {
            place: Place {
                path: next,
                found: Some(found),
            },
            left,
            links: way.links,
        }),
        Err(error) if error.kind() == ErrorKind::NotFound && !is_inner => Ok(Way {
            place: Place {
                path: next,
                found: None,
            },
            left,
            links: way.links,
        }),
        Err(error) => Err(error),
    }
}

// The names before and after the first slash.
fn first_name(path: &str) -> &str {
    match path.split_once('/') {
        Some((name, _)) => name,
        None => path,
    }
}

fn other_names(path: &str) -> &str {
    match path.split_once('/') {
        Some((_, rest)) => rest,
        None => "",
    }
}

// The directory above, which isn't above the root.
fn one_up(rt: &HostRuntime, alloc: Global, root: &str, place: Place) -> io::Result<Place> {
    match place.path.rsplit_once('/') {
        Some((front, _)) if place.path.len() > root.len() => Ok(Place {
            path: String::from_str(alloc, front)?,
            found: Some(metadata(rt, front)?),
        }),
        _ => Ok(place),
    }
}

// A link in this directory is followed.
fn after_link(
    rt: &HostRuntime,
    alloc: Global,
    root: &str,
    directory: Place,
    link: String,
    rest: String,
    links: u32,
) -> io::Result<Way> {
    if links >= MOST_LINKS {
        return Err(ErrorKind::FilesystemLoop.into());
    }
    let target = read_link(rt, link.as_str())?;
    let target = target.as_str();
    let place = if target.starts_with('/') {
        at_root(rt, alloc, root)?
    } else {
        directory
    };
    let rest = rest.as_str();
    let left = if rest.is_empty() {
        String::from_str(alloc, target)?
    } else {
        format!(in alloc; "{target}/{rest}")?
    };
    Ok(Way {
        place,
        left,
        links: links + 1,
    })
}
