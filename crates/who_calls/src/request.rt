ghost use Rattle.std.specs.Prelude.{◌≡◌};
ghost use Rattle.who_calls.specs.Request.{asked, has_own_rights, may_be_root, named_caller, real_user, service_request};

use crate::ids::{Ids, ids_in};
use pam_base::number_in;

/// The caller if the system doesn't say who it is: nobody.
const NOBODY: u32 = 65_534;

/// What a process that serves logins is asked for.
#[derive(Clone, Copy)]
pub struct Request<'a> {
    /// The directory that its files are under.
    pub root: &'a str,
    /// The user ID that its calls are made for.
    pub caller: u32,
}

/// What these arguments ask of a process whose `/proc/self/status` is this text, or empty if it can't be read:
///
/// - none: the files of `/`, for the process's real user, or for nobody if the text doesn't say who that is;
/// - `ROOT`: the same under another root, if the text says that the process has only the rights of
///   its real user and group;
/// - `--caller UID`: the files of `/`, for that user, unless the text says that a user ID of the
///   process isn't root's.
///
/// All other arguments ask for nothing. Who starts the process gives it no right by an argument: it isn't setuid, and
/// has the rights of whoever started it, who could run any other program instead.
pub fn request_in<'a>(words: &'a [String], status: &[u8]) -> Option<Request<'a>>
    ensures { asked result ≡ service_request status.now words.now }
{
    let user = ids_in(status, b"Uid:");
    let group = ids_in(status, b"Gid:");
    match words {
        [] => Some(Request {
            root: "/",
            caller: real_user(&user),
        }),
        [root] if has_own_rights(&user, &group) => Some(Request {
            root: root.as_str(),
            caller: real_user(&user),
        }),
        [option, caller] if option.as_str() == "--caller" && may_be_root(&user) => {
            named_caller(caller.as_bytes())
        }
        _ => None,
    }
}

fn real_user(user: &Option<Ids>) -> u32
    ensures { result ≡ real_user user.now }
{
    match user {
        Some(ids) => ids.real,
        None => NOBODY,
    }
}

// Whether the process is known to have only the rights of its real user and group.
fn has_own_rights(user: &Option<Ids>, group: &Option<Ids>) -> bool
    ensures { result ≡ has_own_rights user.now group.now }
{
    match (user, group) {
        (Some(user), Some(group)) => user.are_one() && group.are_one(),
        _ => false,
    }
}

// Whether no user ID of the process is known to be another's than root's.
fn may_be_root(user: &Option<Ids>) -> bool
    ensures { result ≡ may_be_root user.now }
{
    match user {
        Some(ids) => ids.are_root(),
        None => true,
    }
}

// The files of `/`, for the user with this ID in decimal digits.
fn named_caller<'a>(caller: &[u8]) -> Option<Request<'a>>
    ensures { asked result ≡ named_caller caller.now }
{
    Some(Request {
        root: "/",
        caller: number_in(caller)?,
    })
}
