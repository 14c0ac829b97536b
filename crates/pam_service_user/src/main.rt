//! `pam_service_user`: `pam_service` for an ordinary user's programs, such as screen lockers. The C library of libpam starts
//! it if its caller isn't root. It is installed with the setgid bit, for the group `shadow`, so whoever starts it has no
//! choice: it takes no arguments, its files are those of `/`, its calls are made for its real user, and of `/etc/shadow` it
//! sees that user's lines alone, and writes nothing.
//!
//! Begin at `run`; `serve_user` has the contract, which takes no files but those of `own_files::OwnFiles` for that user,
//! whose contract says what is seen of them, and that none is changed.
#![tactic(auto)]

mod asked;

ghost use Rattle.std.specs.Prelude.{◌≡◌, [], false, IfOk, codes};
ghost use Rattle.cmd_login.specs.cmd_run.specs.pam_handle.specs.Plain.{in_box};
ghost use Rattle.cmd_all.specs.Command.{command_of};
ghost use Rattle.who_calls.specs.Request.{real_user};
ghost use Rattle.who_calls.specs.Status.{ids_in};
ghost use Rattle.frame_service.specs.Service.{IsOfFrames, StatusOf};
ghost use Rattle.frame_service.specs.Streams.{ServesStreams};
ghost use Rattle.pam_service_user.specs.Own.{own_command, own_name};
ghost use Rattle.own_files.specs.Own.{files_for};

use crate::asked::{UserInvocation, asked_of};
use cmd_all::{Outside, OutsideTold, TimeOfDay};
use command_line::{NO_STREAMS, exit_status, reserve_streams};
use frame_service::{serve_streams, system_text, words_of};
use front_conv::Streams;
use own_files::OwnFiles;
use pam_base::Text;
use pam_outside::{Clock, MAX_FILE, Nap, NapSum, Vault};
use pam_room::{Process, World};
use shipped_modules::SystemTime;
use std::alloc::Global;
use std::io::{self, Read, Stdin, Stdout};
use std::process::ExitCode;
use std::snapshot::Snapshot;
use system_objects::{FolderVault, RealClock};

/// The file that has a process's own user and group IDs.
const STATUS: &str = "/proc/self/status";

/// The maximum number of bytes of that file that are read.
const MAX_STATUS: u32 = 65_536;

/// The file that has the users' names.
const PASSWD: &str = "/etc/passwd";

fn main(rt: HostRuntime) -> ExitCode {
    ExitCode::from(exit_status(run(rt)))
}

// Reads what the system says about the process and its user, makes the world, with the user's own files alone, and
// serves the user over standard input and output.
fn run(rt: HostRuntime) -> io::Result<u8> {
    let alloc = rt.alloc();
    let _streams = match reserve_streams(&rt) {
        Ok(streams) => streams,
        Err(_) => return Ok(NO_STREAMS),
    };
    let words = words_of(&rt)?;
    let status = system_text(rt, STATUS, MAX_STATUS);
    let passwd = system_text(rt, PASSWD, MAX_FILE);
    let accounts = Snapshot::of(&passwd);
    let UserInvocation {
        words: command,
        caller,
        user,
    } = asked_of(alloc, &words, &status, passwd)?;
    let front = Streams {
        reader: rt.stdin(),
        writer: rt.stdout(),
    };
    let vault: Box<dyn Vault> = Box::new(alloc, files_of(rt, user))?;
    let clock: Box<dyn Clock> = Box::new(alloc, RealClock::new(rt))?;
    let nap: Box<dyn Nap> = Box::new(alloc, NapSum::new())?;
    let mut world = World {
        vault,
        clock,
        nap,
        process: Process::new(alloc, Text::new(alloc), caller),
    };
    let time: Box<dyn TimeOfDay> = Box::new(alloc, SystemTime::new(rt))?;
    serve_user(
        alloc, &words, &status, &accounts, &command, front, time, &mut world,
    )
}

// The files of the system, as far as this user may see them.
fn files_of(rt: HostRuntime, user: Text) -> OwnFiles<FolderVault>
    ensures user { result.user ≡ user }
{
    OwnFiles::new(FolderVault::new(rt), user)
}

// Serves the calls of a front end for the real user that this text of /proc/self/status gives, over the clock of the
// system, and its files as `OwnFiles` shows them to the user who has that ID in /etc/passwd: any other store, and the
// same for another user, is refused.
fn serve_user(
    alloc: Global,
    words: &[String],
    said: &Text,
    accounts: &Snapshot<Text>,
    command: &[String],
    front: Streams<Stdin, Stdout>,
    time: Box<dyn TimeOfDay>,
    world: &mut World,
) -> io::Result<u8>
    requires command { command_of command.now ≡ own_command words.now }
    requires caller { world.old.process.caller ≡ real_user (ids_in said.now (codes "Uid:")) }
    requires files { vault_tells (in_box world.old.vault) ≡ false }
    requires own { vault_holds (in_box world.old.vault)
        ≡ files_for (own_name (ids_in said.now (codes "Uid:")) accounts.now.value) }
    requires clock { clock_tells (in_box world.old.clock) ≡ false }
    requires frames { IsOfFrames (command_of command.now) }
    requires no_births { world.old.process.ledger.births ≡ [] }
    requires no_receipts { world.old.process.ledger.filed ≡ [] }
    ensures status { IfOk result (λ status. StatusOf (own_command words.now) status) }
    ensures served { IfOk result (λ status. ServesStreams (own_command words.now) status
        front.reader (⟦<Stdin as Read>⟧.remaining front.reader) front.writer
        (time_gives time) (⟦<Outside as OutsideTold>⟧.around world.old world.new)) }
{
    serve_streams(alloc, command, front, time, world)
}
