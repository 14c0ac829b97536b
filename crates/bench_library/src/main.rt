//! Measures what a start and a pass cost by themselves, without a report. `bench_library LINES
//! STARTS PASSES` has a service of LINES lines `auth required pam_permit.so` in memory, starts it
//! STARTS times, and authenticates PASSES times after each start. It prints how many
//! authentications succeeded; their cost is measured from outside (`bench/library.sh`).
#![tactic(auto)]

ghost use Rattle.std.specs.Prelude.{IfOk};
ghost use Rattle.pam_handle.specs.Around.{IsReady};

use conv_port::{Conv, QueueConv};
use fail_delay::DelayFn;
use mod_basic::Permit;
use pam_base::{Code, NoMemory, Numbers, Text};
use pam_handle::{CallTold, Calls, Gear, Handle, StartCache};
use pam_outside::{FixedClock, MemVault, NapSum, Vault};
use pam_room::{Module, Process, World};
use std::alloc::Global;
use std::process::ExitCode;
use std::{env, io};

/// The service's file, and a line of it.
const PATH: &[u8] = b"/etc/pam.d/bench";

const LINE: &[u8] = b"auth required pam_permit.so\n";

fn main(rt: HostRuntime) -> io::Result<ExitCode> {
    let alloc = rt.alloc();
    let mut numbers: Vec<u32> = Vec::new(alloc);
    for word in env::args(&rt)?.skip(1) {
        numbers.push(word.parse().unwrap_or(0))?;
    }
    let [lines, starts, passes] = numbers.as_slice() else {
        println!(rt; "usage: bench_library LINES STARTS PASSES")?;
        return Ok(ExitCode::FAILURE);
    };
    match let_in(alloc, *lines, *starts, *passes) {
        Ok(Some(count)) => {
            println!(rt; "{count} authentications let in")?;
            Ok(ExitCode::SUCCESS)
        }
        Ok(None) => {
            println!(rt; "refused")?;
            Ok(ExitCode::FAILURE)
        }
        Err(NoMemory) => {
            println!(rt; "no memory")?;
            Ok(ExitCode::FAILURE)
        }
    }
}

// How many authentications of all starts succeeded; None if the service was refused, as it is with
// more lines than a stack may have.
fn let_in(alloc: Global, lines: u32, starts: u32, passes: u32) -> Result<Option<u32>, NoMemory> {
    let mut mods: Vec<Box<dyn Module>> = Vec::new(alloc);
    mods.push(Box::new(alloc, Permit::new())?)?;
    let delay = |_code: Code, asked: u32| -> u32 { asked.min(3_000_000) };
    let gear = Gear {
        mods,
        delay: DelayFn::new(Box::new(alloc, delay)?),
    };
    let mut vault = MemVault::new(alloc, Numbers::new(alloc));
    let service = service_of(alloc, lines)?;
    vault.put(alloc, PATH, service.as_slice())?;
    let mut world = World {
        vault: Box::new(alloc, vault)?,
        clock: Box::new(alloc, FixedClock::new(0, 0))?,
        nap: Box::new(alloc, NapSum::new())?,
        process: Process::new(alloc, Text::new(alloc), 0),
    };
    let mut count = 0u32;
    for _ in 0..starts {
        let conv: Box<dyn Conv> = Box::new(alloc, QueueConv::new(alloc))?;
        let mut cache = StartCache::new(alloc);
        let Ok(mut handle) = Handle::start(
            alloc,
            &gear,
            &mut world,
            1,
            b"bench",
            Some(b"joe"),
            conv,
            &mut cache,
        ) else {
            return Ok(None);
        };
        let passed = authenticate(alloc, &gear, &mut world, &mut handle, passes);
        let _conv = handle.end(&gear, &mut world, 0);
        count = count.saturating_add(passed?);
    }
    Ok(Some(count))
}

// A file of n lines.
fn service_of(alloc: Global, lines: u32) -> Result<Vec<u8>, NoMemory> {
    let mut text = Vec::new(alloc);
    for _ in 0..lines {
        text.extend_from_slice(LINE)?;
    }
    Ok(text)
}

// Authenticates n times, and returns how many of them succeeded.
fn authenticate(
    alloc: Global,
    gear: &Gear,
    world: &mut World,
    handle: &mut Handle,
    passes: u32,
) -> Result<u32, NoMemory>
    requires { IsReady (⟦<Calls as CallTold>⟧.seen gear.now handle.old world.old) }
    ensures { IsReady (⟦<Calls as CallTold>⟧.seen gear.now handle.new world.new) }
{
    let mut count = 0u32;
    for _ in 0..passes {
        if handle.authenticate(alloc, gear, world, 0)? == Code::Success {
            count = count.saturating_add(1);
        }
    }
    Ok(count)
}
