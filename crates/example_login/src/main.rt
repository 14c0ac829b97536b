//! A small application: a door that asks PAM whether somebody may go through, with a module and a
//! conversation of its own. It prints PAM's return code, and exits with that code's number.
#![tactic(auto)]

ghost use Rattle.std.specs.Prelude.{◌≡◌, Ok};
ghost use Rattle.pam_handle.specs.Around.{IsReady};
ghost use Rattle.pam_handle.specs.StackCalled.{StackCalled};
ghost use Rattle.example_login.specs.LetIn.{IsLetIn, IsSameWorld};

mod card;
mod guest;

use card::Card;
use fail_delay::DelayFn;
use guest::Guest;
use mod_basic::{Permit, Probe};
use pam_base::{Code, ESTABLISH_CRED, NoMemory, Text, code_name, code_number};
use pam_handle::{CallTold, Calls, Gear, Handle, StartCache};
use pam_outside::set_moment;
use pam_room::{Module, Process, World};
use std::alloc::Global;
use std::io;
use std::process::ExitCode;
use system_objects::{FolderVault, RealClock, SleepNap, system_moment};

fn main(rt: HostRuntime) -> io::Result<ExitCode> {
    let alloc = rt.alloc();
    let mut mods: Vec<Box<dyn Module>> = Vec::new(alloc);
    mods.push(Box::new(alloc, Permit::new())?)?;
    mods.push(Box::new(alloc, Probe::new())?)?;
    mods.push(Box::new(alloc, Guest::new())?)?;
    let delay = |_code: Code, asked: u32| -> u32 { asked.min(3_000_000) };
    let gear = Gear {
        mods,
        delay: DelayFn::new(Box::new(alloc, delay)?),
    };
    let mut world = World {
        vault: Box::new(alloc, FolderVault::new(rt))?,
        clock: Box::new(alloc, RealClock::new(rt))?,
        nap: Box::new(alloc, SleepNap::new(rt))?,
        process: Process::new(alloc, Text::from_vec(Vec::from_slice(alloc, b"r")?), 65534),
    };
    let conv = Box::new(alloc, Card::new())?;
    let mut cache = StartCache::new(alloc);
    let Ok(mut handle) = Handle::start(
        alloc,
        &gear,
        &mut world,
        1,
        b"door",
        Some(b"guest"),
        conv,
        &mut cache,
    ) else {
        println!(rt; "refused")?;
        return Ok(ExitCode::FAILURE);
    };
    let code = let_in(alloc, &rt, &gear, &mut world, &mut handle).unwrap_or(Code::BufErr);
    let _card = handle.end(&gear, &mut world, code_number(code));
    println!(rt; "{}", code_name(code))?;
    Ok(ExitCode::from(code_number(code) as u8))
}

// Makes the calls of a login program, up to the first that doesn't return SUCCESS. SUCCESS means
// that all three returned it.
fn let_in(
    alloc: Global,
    rt: &HostRuntime,
    gear: &Gear,
    world: &mut World,
    handle: &mut Handle,
) -> Result<Code, NoMemory>
    requires ready { IsReady (⟦<Calls as CallTold>⟧.seen gear.now handle.old world.old) }
    ensures ready { IsReady (⟦<Calls as CallTold>⟧.seen gear.now handle.new world.new) }
    ensures let_in { result ≡ Ok Code.Success → IsLetIn (λ func flags h k w v.
        StackCalled func flags (Ok Code.Success) (⟦<Calls as CallTold>⟧.around gear.now h k w v))
        IsSameWorld handle.old handle.new world.old world.new }
{
    set_time(rt, world);
    match handle.authenticate(alloc, gear, world, 0)? {
        Code::Success => {}
        code => return Ok(code),
    }
    set_time(rt, world);
    match handle.acct_mgmt(alloc, gear, world, 0)? {
        Code::Success => {}
        code => return Ok(code),
    }
    set_time(rt, world);
    handle.setcred(alloc, gear, world, ESTABLISH_CRED)
}

// Sets the clock, which stands still otherwise, to the system's time.
fn set_time(rt: &HostRuntime, world: &mut World)
    ensures { IsSameWorld world.old world.new }
{
    set_moment(&mut world.clock, system_moment(rt));
}
