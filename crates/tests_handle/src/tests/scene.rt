ghost use Rattle.pam_handle.specs.Around.{IsReady};

use conv_port::QueueConv;
use data_cleanup::Ledger;
use pam_base::{Code, Func, NoMemory, Numbers, Text};
use pam_handle::{CallTold, Calls, Gear, Handle, StartCache, Told};
use pam_outside::{FixedClock, MemVault, NapSum, read_file};
use pam_room::{Process, World};
use std::alloc::Global;
use std::test::Fail;

/// A transaction of the service `t` at the time 5, with the file of its rules.
#[derive(Clone, Copy)]
pub struct Scene {
    pub file: &'static [u8],
    /// Stack calls with their flags, in order.
    pub calls: &'static [(Func, u32)],
    /// The status of its end.
    pub status: u32,
}

/// Its result.
#[derive(Drop)]
pub struct Outcome {
    /// What each call returned.
    pub answers: Vec<Result<Code, NoMemory>>,
    /// What the lines that were run returned.
    pub visits: Vec<Code>,
    /// How many cleanup records there were before the end.
    pub swept: usize,
    /// The id, status and result of each cleanup record, those of the end among them.
    pub receipts: Vec<(u64, u32, u32)>,
    /// What the file /stamp holds, nothing if there is none.
    pub stamp: Text,
}

fn world(alloc: Global, file: &[u8]) -> Result<World, Fail> {
    let mut vault = MemVault::new(alloc, Numbers::new(alloc));
    vault.put(alloc, b"/etc/pam.d/t", file)?;
    Ok(World {
        vault: Box::new(alloc, vault)?,
        clock: Box::new(alloc, FixedClock::new(5, 0))?,
        nap: Box::new(alloc, NapSum::new())?,
        process: Process::new(alloc, Text::new(alloc), 1),
    })
}

/// Runs a scene in a new transaction, which is then ended.
pub fn play(alloc: Global, gear: &Gear, scene: &Scene) -> Result<Outcome, Fail> {
    let mut world = world(alloc, scene.file)?;
    let conv = Box::new(alloc, QueueConv::new(alloc))?;
    let mut cache = StartCache::new(alloc);
    let Ok(mut handle) = Handle::start(
        alloc,
        gear,
        &mut world,
        1,
        b"t",
        Some(b"joe"),
        conv,
        &mut cache,
    ) else {
        return Err("refused")?;
    };
    let answers = call_all(alloc, gear, &mut world, &mut handle, scene.calls);
    let told = handle.take_told(alloc);
    let swept = world.process.ledger.filed().len();
    let _conv = handle.end(gear, &mut world, scene.status);
    Ok(Outcome {
        answers: answers?,
        visits: codes_of(alloc, &told)?,
        swept,
        receipts: receipts(alloc, &world.process.ledger)?,
        stamp: read_file(&mut *world.vault, alloc, b"/stamp", 4096).unwrap_or(Text::new(alloc)),
    })
}

fn codes_of(alloc: Global, told: &Told) -> Result<Vec<Code>, NoMemory> {
    let mut codes = Vec::new(alloc);
    for visit in told.trail.items() {
        codes.push(visit.answer)?;
    }
    Ok(codes)
}

fn receipts(alloc: Global, ledger: &Ledger) -> Result<Vec<(u64, u32, u32)>, NoMemory> {
    let mut receipts = Vec::new(alloc);
    for filed in ledger.filed() {
        let receipt = filed.receipt;
        receipts.push((receipt.id, receipt.status, receipt.note))?;
    }
    Ok(receipts)
}

fn call_all(
    alloc: Global,
    gear: &Gear,
    world: &mut World,
    handle: &mut Handle,
    calls: &[(Func, u32)],
) -> Result<Vec<Result<Code, NoMemory>>, NoMemory>
    requires { IsReady (⟦<Calls as CallTold>⟧.seen gear.now handle.old world.old) }
    ensures { IsReady (⟦<Calls as CallTold>⟧.seen gear.now handle.new world.new) }
{
    let mut answers = Vec::new(alloc);
    for (func, flags) in calls {
        answers.push(handle.call(alloc, gear, world, *func, *flags))?;
    }
    Ok(answers)
}
