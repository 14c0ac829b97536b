ghost use Rattle.std.specs.Prelude.{◌<◌, ◌^◌, length};
ghost use Rattle.pam_room.specs.Plain.{plain_process, plain_transaction};
ghost use Rattle.pam_room.specs.Stays.{IsReady};

use conv_port::QueueConv;
use pam_base::{Code, Func, ItemName, NoMemory, Numbers, SharedText, Text, Texts};
use pam_outside::{FixedClock, MemVault, NapSum, read_file};
use pam_room::item_store::Items;
use pam_room::{Call, Module, Process, Room, StackLine, World, end_room, serve_line};
use std::alloc::Global;
use std::test::Fail;

/// A call of a module in a new transaction, at the time 5. It is ended with the status 5.
#[derive(Clone, Copy)]
pub struct Scene<'a> {
    /// The files, and what they hold.
    pub files: &'a [(&'a [u8], &'a [u8])],
    /// Which call of `Vault` fails; none if it is 0.
    pub failing: u64,
    pub items: &'a [(ItemName, &'a [u8])],
    pub func: Func,
    /// The arguments of the line.
    pub words: &'a [&'a [u8]],
    /// The file that is looked at afterwards.
    pub file: &'a [u8],
}

/// Its result.
#[derive(Drop)]
pub struct Outcome {
    pub answer: Result<Code, NoMemory>,
    /// The variables that are set, `NAME=VALUE` each.
    pub variables: Texts,
    /// What the file holds; nothing if it doesn't exist.
    pub file: Text,
}

/// Has a module serve the call.
pub fn serve(alloc: Global, module: Box<dyn Module>, scene: &Scene) -> Result<Outcome, Fail> {
    let mut mods: Vec<Box<dyn Module>> = Vec::new(alloc);
    mods.push(module)?;
    let mut args = Texts::new(alloc);
    for word in scene.words.iter() {
        args.push(Text::from_bytes(alloc, word)?)?;
    }
    let mut world = World {
        vault: Box::new(alloc, vault(alloc, scene)?)?,
        clock: Box::new(alloc, FixedClock::new(5, 0))?,
        nap: Box::new(alloc, NapSum::new())?,
        process: Process::new(alloc, Text::new(alloc), 0),
    };
    let conv = Box::new(alloc, QueueConv::new(alloc))?;
    let mut room = Room::new(alloc, 1, conv);
    set_items(&mut room.transaction.items, scene);
    let call = Call {
        func: scene.func,
        flags: 0,
        args: &args,
    };
    let answer = serve_first(alloc, &mods, &call, &mut room, &mut world);
    let variables = room.transaction.env.list(alloc);
    let _conv = end_room(&mods, room, &mut world.process, 5);
    Ok(Outcome {
        answer,
        variables: variables?,
        file: read_file(&mut *world.vault, alloc, scene.file, 4096).unwrap_or(Text::new(alloc)),
    })
}

fn vault(alloc: Global, scene: &Scene) -> Result<MemVault, Fail> {
    let mut fails = Numbers::new(alloc);
    fails.push(scene.failing)?;
    let mut vault = MemVault::new(alloc, fails);
    for (path, bytes) in scene.files.iter() {
        vault.put(alloc, path, bytes)?;
    }
    Ok(vault)
}

fn set_items(items: &mut Items, scene: &Scene) {
    for (name, value) in scene.items.iter() {
        let _set = items.set_mod(*name, Some(value));
    }
}

// The first module serves a line.
fn serve_first(
    alloc: Global,
    mods: &[Box<dyn Module>],
    call: &Call,
    room: &mut Room,
    world: &mut World,
) -> Result<Code, NoMemory>
    requires some { 0 < length mods.now }
    requires few { length mods.now < 2 ^ 32 }
    requires ready { IsReady (length mods.now) (plain_transaction room.old.transaction)
        (plain_process world.old.process) }
    ensures ready { IsReady (length mods.now) (plain_transaction room.new.transaction)
        (plain_process world.new.process) }
{
    room.transaction.trail.reserve(1)?;
    let line = StackLine {
        place: 1,
        path: SharedText::new(),
        module_number: Some(0),
    };
    serve_line(alloc, mods, line, call, room, world)
}
