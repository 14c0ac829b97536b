//! `pamsess`: makes the calls of a script or of a front end in the transactions of a configuration and reports what each
//! returns, logs a user in, audits a report, or prints a configuration or a tally.
//!
//! Begin at `main`: `run_words` makes the modules, the functions below it the objects that objects.rt names for a command,
//! and `cmd_all::pamsess` is called with them. Each goes on with the next, since what has to be dropped at each exit of a
//! function makes its proof long, and no function may hand out trait objects that it made.
#![tactic(auto)]

mod objects;

ghost use Rattle.std.specs.Prelude.{◌≡◌, ◌≤◌, ℕ, [], is_some, map};
ghost use Rattle.pam_base.specs.declared.code.Code.{Code};
ghost use Rattle.cmd_login.specs.cmd_run.specs.pam_library.specs.Slots.{closed};
ghost use Rattle.cmd_login.specs.cmd_run.specs.pam_handle.specs.Plain.{in_box};
ghost use Rattle.fail_delay.specs.DelayFn.{IsNumberGiven};
ghost use Rattle.shipped_modules.specs.Shipped.{shipped_players};
ghost use Rattle.pam_session_cli.specs.Objects.{AreFiles, IsTime, objects_of, root_of};
ghost use Rattle.pam_session_cli.specs.Objects.{slots_with, wait_for};

use crate::objects::{Files, Replies, Time, objects_of};
use cmd_all::{Desk, DeskTold, TimeOfDay, pamsess};
use command_line::{NO_STREAMS, arguments, exit_status, reserve_streams};
use fail_delay::{DelayRule, LONGEST_ASKED};
use pam_base::{Code, Numbers, Text};
use pam_outside::{Clock, FixedClock, MemVault, Nap, NapSum, Sink, Source, Vault};
use pam_room::conv_port::{Conv, QueueConv, TermConv, WireConv};
use pam_room::{Process, World};
use shipped_modules::{SystemTime, shipped_modules};
use std::alloc::Global;
use std::io;
use std::process::ExitCode;
use system_objects::{FolderVault, ReaderSource, RealClock, SleepNap, WriterSink};

/// How many transactions may be open at a time, each with a conversation.
const TRANSACTIONS: usize = 16;

/// The user ID of the process that the transactions are in: nobody.
const CALLER: u32 = 65534;

/// The longest wait that the delay function returns, in microseconds.
const LONGEST_WAIT: u32 = 3_000_000;

fn main(rt: HostRuntime) -> ExitCode {
    ExitCode::from(exit_status(run(rt)))
}

// Calls the program with the arguments, or with none if one of them isn't UTF-8.
fn run(rt: HostRuntime) -> io::Result<u8> {
    let alloc = rt.alloc();
    let _streams = match reserve_streams(&rt) {
        Ok(streams) => streams,
        Err(_) => return Ok(NO_STREAMS),
    };
    let words = arguments(&rt)?.unwrap_or(Vec::new(alloc));
    run_words(rt, &words)
}

// Makes the clock, the sleep and the time of day that the command gets.
fn run_words(rt: HostRuntime, words: &[String]) -> io::Result<u8> {
    let alloc = rt.alloc();
    match objects_of(words).time {
        Time::Real => {
            let clock: Box<dyn Clock> = Box::new(alloc, RealClock::new(rt))?;
            let nap: Box<dyn Nap> = Box::new(alloc, SleepNap::new(rt))?;
            let day: Box<dyn TimeOfDay> = Box::new(alloc, SystemTime::new(rt))?;
            run_in_time(rt, words, clock, nap, Some(day))
        }
        Time::Fixed => {
            let clock: Box<dyn Clock> = Box::new(alloc, FixedClock::new(0, 0))?;
            let nap: Box<dyn Nap> = Box::new(alloc, NapSum::new())?;
            run_in_time(rt, words, clock, nap, None)
        }
    }
}

// Makes the files that the command gets.
fn run_in_time(
    rt: HostRuntime,
    words: &[String],
    clock: Box<dyn Clock>,
    nap: Box<dyn Nap>,
    day: Option<Box<dyn TimeOfDay>>,
) -> io::Result<u8>
    requires time { IsTime (objects_of words.now).time (clock_tells clock) (nap_tells nap)
        (is_some day) }
{
    let alloc = rt.alloc();
    match objects_of(words).files {
        Files::InMemory => {
            let vault: Box<dyn Vault> = Box::new(alloc, MemVault::new(alloc, Numbers::new(alloc)))?;
            run_over_files(rt, words, clock, nap, day, vault)
        }
        Files::OnDisk => {
            let folder = FolderVault::below(rt, root_in(words))?;
            let vault: Box<dyn Vault> = Box::new(alloc, folder)?;
            run_over_files(rt, words, clock, nap, day, vault)
        }
    }
}

// Makes the conversations that the command gets, one for each transaction and one at the terminal.
fn run_over_files(
    rt: HostRuntime,
    words: &[String],
    clock: Box<dyn Clock>,
    nap: Box<dyn Nap>,
    day: Option<Box<dyn TimeOfDay>>,
    vault: Box<dyn Vault>,
) -> io::Result<u8>
    requires time { IsTime (objects_of words.now).time (clock_tells clock) (nap_tells nap)
        (is_some day) }
    requires files { AreFiles (root_of words.now) (objects_of words.now).files (vault_tells vault)
        (vault_holds vault) }
{
    let alloc = rt.alloc();
    let replies = objects_of(words).replies;
    let term: Box<dyn Conv> = Box::new(alloc, TermConv::new(rt.stdin(), rt.stderr()))?;
    let mut convs: Vec<Box<dyn Conv>> = Vec::new(alloc);
    for _ in 0..TRANSACTIONS {
        let conv: Box<dyn Conv> = match replies {
            Replies::Awaited => Box::new(alloc, WireConv::new(alloc))?,
            Replies::Queued => Box::new(alloc, QueueConv::new(alloc))?,
        };
        convs.push(conv)?;
    }
    let mut world = World {
        vault,
        clock,
        nap,
        process: Process::new(alloc, Text::new(alloc), CALLER),
    };
    run_talks(rt, words, convs, term, day, &mut world)
}

// Makes the shipped modules and the delay function, and calls the program over the standard streams.
fn run_talks(
    rt: HostRuntime,
    words: &[String],
    convs: Vec<Box<dyn Conv>>,
    term: Box<dyn Conv>,
    time: Option<Box<dyn TimeOfDay>>,
    world: &mut World,
) -> io::Result<u8>
    requires talks { map (λ b. closed ((Conv-box b).conv_holds b.value)) convs.items
        ≡ slots_with (objects_of words.now).replies }
    requires time { IsTime (objects_of words.now).time (clock_tells (in_box world.old.clock))
        (nap_tells (in_box world.old.nap)) (is_some time) }
    requires files { AreFiles (root_of words.now) (objects_of words.now).files
        (vault_tells (in_box world.old.vault)) (vault_holds (in_box world.old.vault)) }
    requires caller { world.old.process.caller ≡ 65534 }
    requires no_births { world.old.process.ledger.births ≡ [] }
    requires no_receipts { world.old.process.ledger.filed ≡ [] }
{
    let alloc = rt.alloc();
    let mods = shipped_modules!(alloc);
    let wait = |code: Code, asked: u32| -> u32
        ensures { result ≡ wait_for code asked }
    { wait_for(code, asked) };
    let delay: DelayRule = Box::new(alloc, wait)?;
    returns_wait_for(&delay);
    let desk = Desk {
        mods,
        convs,
        term,
        delay,
        time,
    };
    let mut script = ReaderSource::new(rt.reader());
    let mut out = WriterSink::new(io::writer(&rt));
    Ok(run_desk(alloc, words, &mut script, &mut out, world, desk))
}

// `pamsess` with the objects of these arguments: any others are refused.
fn run_desk<S: Source, K: Sink>(
    alloc: Global,
    words: &[String],
    script: &mut S,
    out: &mut K,
    world: &mut World,
    desk: Desk,
) -> u8
    requires players { (⟦<Desk as DeskTold>⟧.given desk).players ≡ shipped_players }
    requires talks { (⟦<Desk as DeskTold>⟧.given desk).slots
        ≡ slots_with (objects_of words.now).replies }
    requires callable { (code : Code) (asked : ℕ) → asked ≤ LONGEST_ASKED →
        ⟦<DelayRule as Fn(Code, u32) -> u32>⟧.pre desk.delay code asked }
    requires waits { IsNumberGiven (⟦<DelayRule as Fn(Code, u32) -> u32>⟧.post desk.delay)
        wait_for }
    requires time { IsTime (objects_of words.now).time (clock_tells (in_box world.old.clock))
        (nap_tells (in_box world.old.nap)) (is_some desk.time) }
    requires files { AreFiles (root_of words.now) (objects_of words.now).files
        (vault_tells (in_box world.old.vault)) (vault_holds (in_box world.old.vault)) }
    requires caller { world.old.process.caller ≡ 65534 }
    requires no_births { world.old.process.ledger.births ≡ [] }
    requires no_receipts { world.old.process.ledger.filed ≡ [] }
{
    pamsess(alloc, words, script, out, world, desk)
}

// The ROOT of a command, if it has one.
fn root_in(words: &[String]) -> &[u8]
    ensures { result.now ≡ root_of words.now }
{
    match words {
        [_, root, ..] => root.as_bytes(),
        _ => b"/",
    }
}

// How long a run waits after an authentication: the requested delay, at most three seconds, and not at all after
// SUCCESS.
fn wait_for(code: Code, asked: u32) -> u32
    ensures { result ≡ wait_for code asked }
{
    match code {
        Code::Success => 0,
        _ => asked.min(LONGEST_WAIT),
    }
}

// Passes on which numbers a delay function returns.
fn returns_wait_for(_delay: &DelayRule)
    requires { IsNumberGiven (⟦<DelayRule as Fn(Code, u32) -> u32>⟧.post _delay.now) wait_for }
    ensures { IsNumberGiven (⟦<DelayRule as Fn(Code, u32) -> u32>⟧.post _delay.now) wait_for }
{}
