//! `pam_service [ROOT]`, `pam_service --caller UID`: the frames of docs/wire.md for programs that really let somebody in,
//! such as the C library of clients/libpam. It does what `pamsess wire` does, with the system's clock and random words,
//! for the process's real user or for the one that its arguments name, and with a conversation that waits for the front
//! end. It never sleeps: after a failure the answer says how long to wait, and the front end waits.
//!
//! Begin at `run`; `serve_caller` has the contract.
#![tactic(auto)]

mod asked;

ghost use Rattle.std.specs.Prelude.{◌≡◌, [], false, IfOk};
ghost use Rattle.cmd_login.specs.cmd_run.specs.pam_handle.specs.Plain.{in_box};
ghost use Rattle.cmd_all.specs.Command.{command_of};
ghost use Rattle.pam_outside.specs.Paths.{path_of};
ghost use Rattle.system_objects.specs.Folder.{files_below};
ghost use Rattle.who_calls.specs.Request.{service_request};
ghost use Rattle.frame_service.specs.Service.{IsOfFrames, StatusOf};
ghost use Rattle.frame_service.specs.Streams.{ServesStreams};
ghost use Rattle.pam_service.specs.Service.{asked_command, caller_in, root_in};

use crate::asked::{Invocation, asked_of};
use cmd_all::{Outside, OutsideTold, TimeOfDay};
use command_line::{NO_STREAMS, exit_status, reserve_streams};
use frame_service::{serve_streams, system_text, words_of};
use front_conv::Streams;
use pam_base::Text;
use pam_outside::{Clock, Nap, NapSum, Vault};
use pam_room::{Process, World};
use shipped_modules::SystemTime;
use std::alloc::Global;
use std::io::{self, Read, Stdin, Stdout};
use std::process::ExitCode;
use system_objects::{FolderVault, RealClock};

/// The file that has a process's own user and group IDs.
const STATUS: &str = "/proc/self/status";

/// The maximum number of bytes of that file that are read.
const MAX_STATUS: u32 = 65_536;

fn main(rt: HostRuntime) -> ExitCode {
    ExitCode::from(exit_status(run(rt)))
}

// Reads the arguments and what the system says about the process, makes the world, and serves the caller over standard
// input and output.
fn run(rt: HostRuntime) -> io::Result<u8> {
    let alloc = rt.alloc();
    let _streams = match reserve_streams(&rt) {
        Ok(streams) => streams,
        Err(_) => return Ok(NO_STREAMS),
    };
    let words = words_of(&rt)?;
    let status = system_text(rt, STATUS, MAX_STATUS);
    let asked = asked_of(alloc, &words, &status)?;
    let front = Streams {
        reader: rt.stdin(),
        writer: rt.stdout(),
    };
    let vault: Box<dyn Vault> = Box::new(alloc, FolderVault::below(rt, asked.root.bytes())?)?;
    let clock: Box<dyn Clock> = Box::new(alloc, RealClock::new(rt))?;
    let nap: Box<dyn Nap> = Box::new(alloc, NapSum::new())?;
    let mut world = World {
        vault,
        clock,
        nap,
        process: Process::new(alloc, Text::new(alloc), asked.caller),
    };
    let time: Box<dyn TimeOfDay> = Box::new(alloc, SystemTime::new(rt))?;
    serve_caller(alloc, &words, &status, &asked, front, time, &mut world)
}

// Serves the calls of a front end for the caller that these arguments and this text of
// /proc/self/status give, over the system's clock, and its files below the root that the arguments give: any other
// store is refused.
fn serve_caller(
    alloc: Global,
    words: &[String],
    said: &Text,
    asked: &Invocation,
    front: Streams<Stdin, Stdout>,
    time: Box<dyn TimeOfDay>,
    world: &mut World,
) -> io::Result<u8>
    requires request { command_of asked.now.words.items
        ≡ asked_command (service_request said.now words.now) }
    requires caller { world.old.process.caller ≡ caller_in (service_request said.now words.now) }
    requires files { vault_tells (in_box world.old.vault) ≡ false }
    requires below { vault_holds (in_box world.old.vault)
        ≡ files_below (path_of (root_in (service_request said.now words.now)) []) }
    requires clock { clock_tells (in_box world.old.clock) ≡ false }
    requires frames { IsOfFrames (command_of asked.now.words.items) }
    requires no_births { world.old.process.ledger.births ≡ [] }
    requires no_receipts { world.old.process.ledger.filed ≡ [] }
    ensures status { IfOk result (λ status.
        StatusOf (asked_command (service_request said.now words.now)) status) }
    ensures served { IfOk result (λ status. ServesStreams
        (asked_command (service_request said.now words.now)) status
        front.reader (⟦<Stdin as Read>⟧.remaining front.reader) front.writer
        (time_gives time) (⟦<Outside as OutsideTold>⟧.around world.old world.new)) }
{
    serve_streams(alloc, &asked.words, front, time, world)
}
