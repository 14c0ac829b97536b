ghost use Rattle.std.specs.Prelude.{◌≡◌, ◌≤◌, IfOk, codes, length};
ghost use Rattle.account_db.specs.Passwd.{passwds_of};
ghost use Rattle.cmd_all.specs.Command.{command_of};
ghost use Rattle.who_calls.specs.Request.{real_user};
ghost use Rattle.who_calls.specs.Status.{ids_in};
ghost use Rattle.frame_service.specs.Service.{IsOfFrames};
ghost use Rattle.pam_service_user.specs.Own.{name_in, own_command, own_name};

use account_db::{entry_of_uid, passwds};
use frame_service::{NOBODY, no_words, wire_words};
use pam_base::Text;
use std::alloc::Global;
use std::io::{self, ErrorKind};
use who_calls::{Ids, ids_in};

/// What the program is called with.
#[derive(Drop)]
pub struct UserInvocation {
    /// `wire /`, or none; then only the usage line is written.
    pub words: Vec<String>,
    /// The user ID that calls are made for: the process's real user.
    pub caller: u32,
    /// That user's name; empty if nobody has it.
    pub user: Text,
}

/// What these arguments ask of a process with this `/proc/self/status` on a system with this `/etc/passwd`.
pub fn asked_of(
    alloc: Global,
    words: &[String],
    status: &Text,
    passwd: Text,
) -> io::Result<UserInvocation>
    requires { length passwd ≤ 1048576 }
    ensures command { IfOk result (λ asked. command_of asked.words.items
        ≡ own_command words.now) }
    ensures frames { IfOk result (λ asked. IsOfFrames (command_of asked.words.items)) }
    ensures caller { IfOk result (λ asked. asked.caller
        ≡ real_user (ids_in status.now (codes "Uid:"))) }
    ensures user { IfOk result (λ asked. asked.user
        ≡ own_name (ids_in status.now (codes "Uid:")) passwd) }
{
    let ids = ids_in(status.bytes(), b"Uid:");
    Ok(UserInvocation {
        words: own_words(alloc, words)?,
        caller: real_user(&ids),
        user: own_name(alloc, &ids, passwd)?,
    })
}

// `wire /`, if there are no arguments.
fn own_words(alloc: Global, words: &[String]) -> io::Result<Vec<String>>
    ensures command { IfOk result (λ own. command_of own.items ≡ own_command words.now) }
    ensures frames { IfOk result (λ own. IsOfFrames (command_of own.items)) }
{
    match words {
        [] => wire_words(alloc, "/"),
        _ => Ok(no_words(alloc)),
    }
}

fn real_user(ids: &Option<Ids>) -> u32
    ensures { result ≡ real_user ids.now }
{
    match ids {
        Some(ids) => ids.real,
        None => NOBODY,
    }
}

fn own_name(alloc: Global, ids: &Option<Ids>, passwd: Text) -> io::Result<Text>
    requires { length passwd ≤ 1048576 }
    ensures { IfOk result (λ name. name ≡ own_name ids.now passwd) }
{
    match ids {
        Some(ids) => name_in(alloc, ids.real, passwd),
        None => Ok(Text::new(alloc)),
    }
}

// The name of the user with this ID.
fn name_in(alloc: Global, uid: u32, passwd: Text) -> io::Result<Text>
    requires { length passwd ≤ 1048576 }
    ensures { IfOk result (λ name. name ≡ name_in uid (passwds_of passwd)) }
{
    match passwds(passwd) {
        Ok(entries) => match entry_of_uid(alloc, uid, &entries) {
            Ok(Some(entry)) => Ok(entry.name),
            Ok(None) => Ok(Text::new(alloc)),
            Err(_) => Err(ErrorKind::OutOfMemory.into()),
        },
        Err(_) => Ok(Text::new(alloc)),
    }
}
