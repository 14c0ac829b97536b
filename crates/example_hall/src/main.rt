//! A small application that has several transactions open at a time: a hall whose visitors are let
//! in one after another, and stay until it closes. It prints PAM's return code for each of them.
#![tactic(auto)]

ghost use Rattle.std.specs.Prelude.{◌≡◌, [], Ok, IfOk, IsTrue, length};
ghost use Rattle.pam_base.specs.Call.{is_fit};
ghost use Rattle.pam_library.specs.Plain.{gear_in};
ghost use Rattle.pam_library.specs.Seen.{IsSoundIn};
ghost use Rattle.pam_library.specs.Slots.{NoneIsOpen};
ghost use Rattle.pam_library.specs.Sound.{IsSoundFor};
ghost use Rattle.example_hall.specs.LetIn.{IsLetIn, OthersStay, Succeeds};

use conv_port::{Conv, QueueConv};
use data_cleanup::Ledger;
use fail_delay::DelayFn;
use mod_basic::Permit;
use pam_base::{AppCall, Code, NoMemory, Step, Text, code_name};
use pam_handle::{Gear, GearTold};
use pam_library::{Answer, Library, LibraryTold, Session, Told};
use pam_outside::set_moment;
use pam_room::{Module, Process, World};
use std::alloc::Global;
use std::io;
use std::process::ExitCode;
use system_objects::{FolderVault, RealClock, SleepNap, system_moment};

fn main(rt: HostRuntime) -> io::Result<ExitCode> {
    let alloc = rt.alloc();
    let mut mods: Vec<Box<dyn Module>> = Vec::new(alloc);
    mods.push(Box::new(alloc, Permit::new())?)?;
    let delay = |_code: Code, asked: u32| -> u32 { asked.min(3_000_000) };
    let gear = Gear {
        mods,
        delay: DelayFn::new(Box::new(alloc, delay)?),
    };
    let mut convs: Vec<Box<dyn Conv>> = Vec::new(alloc);
    for _ in 0..16u32 {
        convs.push(Box::new(alloc, QueueConv::new(alloc))?)?;
    }
    let mut world = World {
        vault: Box::new(alloc, FolderVault::new(rt))?,
        clock: Box::new(alloc, RealClock::new(rt))?,
        nap: Box::new(alloc, SleepNap::new(rt))?,
        process: Process::new(alloc, Text::from_vec(Vec::from_slice(alloc, b"r")?), 65534),
    };
    let Ok(mut library) = library_of(alloc, gear, convs, &world.process.ledger) else {
        println!(rt; "no memory")?;
        return Ok(ExitCode::FAILURE);
    };
    set_time(&rt, &mut world);
    let first = let_in(alloc, &mut library, &mut world, 1, b"ann").unwrap_or(Code::BufErr);
    set_time(&rt, &mut world);
    let second = let_in(alloc, &mut library, &mut world, 2, b"joe").unwrap_or(Code::BufErr);
    close_all(&mut library, &mut world);
    library.dismiss();
    println!(rt; "{} {}", code_name(first), code_name(second))?;
    Ok(ExitCode::SUCCESS)
}

// A library in which no transaction is open, over an empty cleanup log.
fn library_of(
    alloc: Global,
    gear: Gear,
    convs: Vec<Box<dyn Conv>>,
    ledger: &Ledger,
) -> Result<Library, NoMemory>
    requires sixteen { length convs.items ≡ 16 }
    requires births { ledger.now.births ≡ [] }
    requires filed { ledger.now.filed ≡ [] }
    ensures { IfOk result (λ library. IsSoundFor (⟦<Gear as GearTold>⟧.players (gear_in library))
        (⟦<Library as LibraryTold>⟧.slots library) ledger.now) }
{
    pam_library::laws::closed_places_have_no_events();
    let library = Library::new(alloc, gear, convs)?;
    Ok(library)
}

// Starts a transaction, which stays open, authenticates in it, and asks whether the account may be
// used. SUCCESS means that all three calls returned it. Every other transaction is as before.
fn let_in(
    alloc: Global,
    library: &mut Library,
    world: &mut World,
    number: u32,
    user: &[u8],
) -> Result<Code, NoMemory>
    requires sound { IsSoundIn (⟦<Session as Told>⟧.seen library.old world.old) }
    ensures sound { IsSoundIn (⟦<Session as Told>⟧.seen library.new world.new) }
    ensures others { let seen = ⟦<Session as Told>⟧.seen in OthersStay number
        (seen library.old world.old) (seen library.new world.new) }
    ensures let_in { let seen = ⟦<Session as Told>⟧.seen in result ≡ Ok Code.Success → IsLetIn
        (λ call l w k v. Succeeds (record { number = number; call = call }) (seen l w) (seen k v))
        user.now library.old library.new world.old world.new }
{
    let service = Text::from_bytes(alloc, b"door")?;
    let user = Some(Text::from_bytes(alloc, user)?);
    let call = AppCall::Start { service, user };
    match make(alloc, library, world, &Step { number, call })? {
        Code::Success => {}
        code => return Ok(code),
    }
    let call = AppCall::Authenticate { flags: 0 };
    match make(alloc, library, world, &Step { number, call })? {
        Code::Success => {}
        code => return Ok(code),
    }
    let call = AppCall::AcctMgmt { flags: 0 };
    make(alloc, library, world, &Step { number, call })
}

// Makes a call, and returns its code; SYSTEM_ERR if it has none.
fn make(
    alloc: Global,
    library: &mut Library,
    world: &mut World,
    step: &Step,
) -> Result<Code, NoMemory>
    requires sound { IsSoundIn (⟦<Session as Told>⟧.seen library.old world.old) }
    requires fit { IsTrue (is_fit step.now.call) }
    ensures sound { IsSoundIn (⟦<Session as Told>⟧.seen library.new world.new) }
    ensures others { let seen = ⟦<Session as Told>⟧.seen in OthersStay step.now.number
        (seen library.old world.old) (seen library.new world.new) }
    ensures succeeds { let seen = ⟦<Session as Told>⟧.seen in result ≡ Ok Code.Success →
        Succeeds step.now (seen library.old world.old) (seen library.new world.new) }
{
    let outcome = library.apply(alloc, world, step)?;
    match outcome.answer {
        Answer::Code(code) => Ok(code),
        _ => Ok(Code::SystemErr),
    }
}

// Ends all open transactions.
fn close_all(library: &mut Library, world: &mut World)
    requires { IsSoundIn (⟦<Session as Told>⟧.seen library.old world.old) }
    ensures { NoneIsOpen (⟦<Library as LibraryTold>⟧.slots library.new) }
{
    while let Some(_number) = library.close_one(world, 0) {}
}

// Sets the clock, which stands still otherwise, to the system's time.
fn set_time(rt: &HostRuntime, world: &mut World)
    ensures { world.new.process ≡ world.old.process }
{
    set_moment(&mut world.clock, system_moment(rt));
}
