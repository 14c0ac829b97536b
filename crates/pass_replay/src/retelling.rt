ghost use Rattle.std.specs.Prelude.{◌≡◌, ◌≤◌, ◌-◌, IfOk, List, None, Option, drop, false, length};
ghost use Rattle.dispatch_core.specs.Calls.{change, check, first_stack, goes, held_past, kind_of, one_pass, passes, update, went};
ghost use Rattle.dispatch_core.specs.Pending.{first_in, past_in, pending_after};
ghost use Rattle.dispatch_core.specs.service_load.specs.Load.{AreBounded};
ghost use Rattle.handler_chain.specs.Retell.{telling};
ghost use Rattle.handler_chain.specs.declared.seen.RecordedLine.{RecordedLine};
ghost use Rattle.pass_replay.specs.Held.{held_of, pending_of};
ghost use Rattle.pass_replay.specs.Kept.{kept_answers};
ghost use Rattle.pass_replay.specs.Replay.{as_told};
ghost use Rattle.pass_replay.specs.Passed.{passed_of};
ghost use Rattle.pass_replay.specs.Retold.{held_after, stacks_in, went_of};
ghost use Rattle.pass_replay.specs.Told.{lines_before, telling_from, visits_in};

use crate::answers::Answers;
use crate::by_call::{held_after, kind_of, stack_for, take_cached};
use crate::held::{Held, Pending};
use crate::pass::pass;
use crate::passed::Passed;
use crate::retold::Retold;
use crate::told::first_left;
use dispatch_core::service_load::Trees;
use handler_chain::{PassKind, RecordedLine};
use pam_base::{Code, Func, NoMemory, Sequence};
use std::alloc::Global;

/// Replays a stack call, while no other one is pending, by the recorded lines of its block: lines
/// that were run, and None for others. An incomplete call is resumed. The replay doesn't judge
/// which recorded lines it took: `astray` and `next` say whether the call runs exactly these.
///
/// Fails only if an allocation fails. The time is linear in the lines of the stack and in the
/// recorded lines.
pub fn retell(
    alloc: Global,
    trees: &Trees,
    func: Func,
    held: Held,
    told: &[Option<RecordedLine>],
) -> Result<Retold, NoMemory>
    requires bounded { AreBounded trees.now }
    ensures goes { IfOk result (λ retold. went_of told.now retold
        ≡ goes as_told (stacks_in trees.now) func (held_of held) (telling (visits_in told.now))) }
    ensures next { IfOk result (λ retold. retold.next ≡ lines_before
        (length (visits_in told.now) - length (visits_in (drop retold.next told.now)))
        told.now) }
    ensures within { IfOk result (λ retold. retold.next ≤ length told.now) }
{
    let source = Source { alloc, trees, told };
    let mut retold = call(&source, func, held)?;
    retold.next = first_left(told, retold.next);
    Ok(retold)
}

// What a replay reads: the stacks and the recorded lines; and the allocator.
#[derive(Clone, Copy)]
struct Source<'a> {
    alloc: Global,
    trees: &'a Trees,
    told: &'a [Option<RecordedLine>],
}

// The same, except that `next` is the line after the last recorded line that was taken.
fn call(source: &Source, func: Func, held: Held) -> Result<Retold, NoMemory>
    requires bounded { AreBounded source.now.trees.now }
    ensures { IfOk result (λ retold. went_of source.now.told.now retold
        ≡ goes as_told (stacks_in source.now.trees.now) func (held_of held)
        (telling (visits_in source.now.told.now))) }
{
    let mut held = held;
    let (past, first) = resumed_from(source.alloc, held.pending.take());
    if func != Func::ChAuthTok {
        return one_pass(source, func, &past, held);
    }
    change(source, &past, first, held)
}

// The codes of the pending call, and those of the first pass of chauthtok.
fn resumed_from(alloc: Global, pending: Option<Pending>) -> (Sequence<Code>, Option<Answers>)
    ensures past { result.0 ≡ past_in (pending_of pending) }
    ensures first { kept_answers result.1 ≡ first_in (pending_of pending) }
{
    match pending {
        Some(pending) => (pending.past, pending.first),
        None => (Sequence::new(alloc), None),
    }
}

// What is pending after a pass: its call, if the pass is incomplete.
fn pending_after(
    func: Func,
    first: Option<Answers>,
    paused: Option<Sequence<Code>>,
) -> Option<Pending>
    ensures { pending_of result ≡ pending_after func (kept_answers first) paused }
{
    match paused {
        Some(past) => Some(Pending { func, past, first }),
        None => None,
    }
}

// The first pass of a call, after the codes of its earlier calls, with the codes cached for it.
fn first_pass(
    source: &Source,
    func: Func,
    past: &Sequence<Code>,
    cached: Option<Answers>,
) -> Result<Passed, NoMemory>
    requires bounded { AreBounded source.now.trees.now }
    ensures { IfOk result (λ passed. passed_of source.now.told.now passed
        ≡ passes as_told (stacks_in source.now.trees.now) func false
        (kind_of func (kept_answers cached)) (kept_answers cached)
        (first_stack func (stacks_in source.now.trees.now)) past.now
        (telling (visits_in source.now.told.now))) }
{
    let nodes = stack_for(func, source.trees);
    let kind = kind_of(func, &cached);
    pass(
        source.alloc,
        nodes,
        kind,
        cached,
        past.items(),
        source.told,
        0,
        false,
    )
}

// The result of a call of one pass: the codes that the call caches are stored.
fn retold_call(func: Func, passed: Passed, held: Held) -> Retold
    ensures { (told : List (Option RecordedLine)) → went_of told result ≡ went passed.code
        (held_past func None (passed_of told passed) (held_of held))
        (telling_from told passed.next passed.astray) }
{
    let pending = pending_after(func, None, passed.paused);
    Retold {
        code: passed.code,
        held: held_after(func, passed.kept, pending, held),
        next: passed.next,
        astray: passed.astray,
    }
}

// A call of one pass.
fn one_pass(
    source: &Source,
    func: Func,
    past: &Sequence<Code>,
    held: Held,
) -> Result<Retold, NoMemory>
    requires bounded { AreBounded source.now.trees.now }
    ensures { IfOk result (λ retold. went_of source.now.told.now retold
        ≡ one_pass as_told (stacks_in source.now.trees.now) func past.now (held_of held)
        (telling (visits_in source.now.told.now))) }
{
    let mut held = held;
    let cached = take_cached(func, &mut held);
    let passed = first_pass(source, func, past, cached)?;
    Ok(retold_call(func, passed, held))
}

// The passes of chauthtok that are left: both, or the second one if the codes of the first are
// held.
fn change(
    source: &Source,
    past: &Sequence<Code>,
    first: Option<Answers>,
    held: Held,
) -> Result<Retold, NoMemory>
    requires bounded { AreBounded source.now.trees.now }
    ensures { IfOk result (λ retold. went_of source.now.told.now retold
        ≡ change as_told (stacks_in source.now.trees.now) past.now (kept_answers first)
        (held_of held) (telling (visits_in source.now.told.now))) }
{
    match first {
        Some(first) => update(source, Some(first), past.items(), held, 0, false),
        None => check(source, past, held),
    }
}

// The first pass of chauthtok, and if that returned SUCCESS the second.
fn check(source: &Source, past: &Sequence<Code>, held: Held) -> Result<Retold, NoMemory>
    requires bounded { AreBounded source.now.trees.now }
    ensures { IfOk result (λ retold. went_of source.now.told.now retold
        ≡ check as_told (stacks_in source.now.trees.now) past.now (held_of held)
        (telling (visits_in source.now.told.now))) }
{
    let passed = first_pass(source, Func::ChAuthTok, past, None)?;
    if passed.code == Code::Success {
        let Passed {
            kept,
            next,
            astray,
            ..
        } = passed;
        return update(source, kept, &[], held, next, astray);
    }
    Ok(retold_call(Func::ChAuthTok, passed, held))
}

// The second pass of chauthtok, by the codes that the first cached, from a recorded line on.
fn update(
    source: &Source,
    first: Option<Answers>,
    past: &[Code],
    held: Held,
    next: usize,
    astray: bool,
) -> Result<Retold, NoMemory>
    requires bounded { AreBounded source.now.trees.now }
    ensures { IfOk result (λ retold. went_of source.now.told.now retold
        ≡ update as_told (stacks_in source.now.trees.now) (kept_answers first) past.now
        (held_of held) (telling_from source.now.told.now next astray)) }
{
    let nodes = &source.trees.password;
    let passed = pass(
        source.alloc,
        nodes,
        PassKind::Follow,
        first,
        past,
        source.told,
        next,
        astray,
    )?;
    let pending = pending_after(Func::ChAuthTok, passed.kept, passed.paused);
    Ok(Retold {
        code: passed.code,
        held: Held { pending, ..held },
        next: passed.next,
        astray: passed.astray,
    })
}
