ghost use Rattle.std.specs.Prelude.{◌≡◌, ◌<◌, ◌≤◌, ◌+◌, ◌^◌, IfOk, OnOk, length, map};
ghost use Rattle.control_words.specs.Stack.{depth, lines_in, stack_of};
ghost use Rattle.pam_room.specs.Plain.{plain_process, plain_transaction};
ghost use Rattle.pam_room.specs.Stays.{IsReady};

use control_words::{Keyword, Node, Nodes, Rule};
use conv_port::QueueConv;
use dispatch_core::{PassRequest, Paused, dispatch};
use frozen_chain::Kept;
use handler_chain::{PassKind, flatten};
use mod_basic::Deny;
use pam_base::{Code, Func, NoMemory, Numbers, SharedText, Text, Texts};
use pam_outside::{FixedClock, MemVault, NapSum};
use pam_room::{Module, Process, Room, World, end_room, name_of};
use std::alloc::Global;
use std::test::Fail;

/// What a run of a stack returned, and how often it looked lines up.
#[derive(Clone, Copy, Debug, PartialEq, Eq)]
struct Passed {
    code: Code,
    /// How often it looked up where a line is, or where the run goes on.
    looks: u64,
}

// The list `requisite pam_deny.so`.
fn one_line(alloc: Global) -> Result<Nodes, NoMemory>
    ensures lines { IfOk result (λ nodes. lines_in (stack_of nodes.vec.items) ≡ 1) }
    ensures flat { IfOk result (λ nodes. depth (stack_of nodes.vec.items) ≡ 0) }
{
    let rule = Rule {
        silent: false,
        control: Keyword::Requisite.control(),
        path: SharedText::from_bytes(alloc, b"pam_deny.so")?,
        args: Texts::new(alloc),
    };
    let mut nodes = Nodes::new(alloc);
    nodes.push(Node::Line(rule))?;
    Ok(nodes)
}

// Adds such a list as a substack.
#[tactic(auto, using(crate::proofs::AddedSubstackFacts::lines_after, crate::proofs::AddedSubstackFacts::depth_after))]
fn add_substack(alloc: Global, nodes: &mut Nodes) -> Result<(), NoMemory>
    ensures lines { OnOk result (lines_in (stack_of nodes.new.vec.items)
        ≡ lines_in (stack_of nodes.old.vec.items) + 1) }
    ensures shallow { OnOk result (depth (stack_of nodes.old.vec.items) ≤ 1
        → depth (stack_of nodes.new.vec.items) ≤ 1) }
{
    let inner = one_line(alloc)?;
    nodes.push(Node::Sub(inner))?;
    Ok(())
}

// A line that denies, and a thousand substacks after it.
fn deny_stack(alloc: Global) -> Result<Nodes, NoMemory>
    ensures few { IfOk result (λ nodes. lines_in (stack_of nodes.vec.items) ≤ 4096) }
    ensures shallow { IfOk result (λ nodes. depth (stack_of nodes.vec.items) ≤ 16) }
{
    let mut nodes = one_line(alloc)?;
    for _ in 0..1000usize {
        add_substack(alloc, &mut nodes)?;
    }
    Ok(nodes)
}

fn names_in(alloc: Global, mods: &[Box<dyn Module>]) -> Result<Texts, NoMemory>
    ensures { IfOk result (λ names. names ≡ map label mods.now) }
{
    let mut names = Texts::new(alloc);
    for handler in mods {
        names.push(Text::from_bytes(alloc, name_of(handler))?)?;
    }
    Ok(names)
}

// A first run of authenticate.
fn pass_over(
    alloc: Global,
    nodes: &Nodes,
    names: &Texts,
    mods: &[Box<dyn Module>],
    room: &mut Room,
    world: &mut World,
) -> Result<Passed, NoMemory>
    requires few { lines_in (stack_of nodes.now.vec.items) ≤ 4096 }
    requires shallow { depth (stack_of nodes.now.vec.items) ≤ 16 }
    requires names { names.now ≡ map label mods.now }
    requires numbered { length names.now < 2 ^ 32 }
    requires ready { IsReady (length mods.now) (plain_transaction room.old.transaction)
        (plain_process world.old.process) }
    ensures ready { IsReady (length mods.now) (plain_transaction room.new.transaction)
        (plain_process world.new.process) }
{
    let mut chain = flatten(alloc, nodes, names)?;
    let mut kept = Kept::none();
    let mut paused = Paused::none();
    let request = PassRequest {
        func: Func::Authenticate,
        flags: 0,
        kind: PassKind::Keep,
    };
    let code = dispatch(
        alloc,
        &mut chain,
        mods,
        request,
        &mut kept,
        &mut paused,
        room,
        world,
    )?;
    Ok(Passed {
        code,
        looks: chain.looks(),
    })
}

#[test]
fn a_failed_requisite_looks_at_no_substack_after_it(rt: HostRuntime) -> Result<(), Fail> {
    let alloc = rt.alloc();
    let nodes = deny_stack(alloc)?;
    let mut mods: Vec<Box<dyn Module>> = Vec::new(alloc);
    mods.push(Box::new(alloc, Deny::new())?)?;
    let names = names_in(alloc, &mods)?;
    if names.len() > 1 {
        return Err("too many names")?;
    }
    let mut world = World {
        vault: Box::new(alloc, MemVault::new(alloc, Numbers::new(alloc)))?,
        clock: Box::new(alloc, FixedClock::new(0, 0))?,
        nap: Box::new(alloc, NapSum::new())?,
        process: Process::new(alloc, Text::new(alloc), 0),
    };
    let conv = Box::new(alloc, QueueConv::new(alloc))?;
    let mut room = Room::new(alloc, 1, conv);
    let passed = pass_over(alloc, &nodes, &names, &mods, &mut room, &mut world);
    let visits = room.transaction.trail.len();
    let _conv = end_room(&mods, room, &mut world.process, 0);
    let passed = passed?;
    assert_eq!(rt; (passed.code, visits), (Code::AuthErr, 1));
    assert!(rt; passed.looks <= 4);
    Ok(())
}
