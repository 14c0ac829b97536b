ghost use Rattle.std.specs.Prelude.{◌≡◌, ◌≤◌, ◌++◌, [], None, OnOk, string_bytes};
ghost use Rattle.control_words.specs.Stack.{lines_in, stack_of};
ghost use Rattle.service_load.specs.Load.{AreBounded};
ghost use Rattle.service_load.specs.Trees.{nodes_in};
ghost use Rattle.handler_chain.specs.Retell.{telling};
ghost use Rattle.pass_replay.specs.dispatch_core.specs.Calls.{Held as Holding};
ghost use Rattle.pass_replay.specs.Held.{held_of};
ghost use Rattle.pass_replay.specs.Kept.{kept_answers};
ghost use Rattle.pass_replay.specs.Retold.{stacks_in};
ghost use Rattle.pass_replay.specs.Told.{telling_from, visits_in};
ghost use Rattle.explain_calls.specs.Calls.{call_after_text, call_text, change_text, check_text, first_text, refused_text, run_text, second_text};

use crate::runs::{Run, rows_of};
use explain_lines::{Sources, write_run};
use handler_chain::{PassKind, RecordedLine};
use pam_base::{Code, Func, NoMemory};
use pass_replay::answers::Answers;
use pass_replay::held::Held;
use pass_replay::pass::pass;
use pass_replay::passed::Passed;
use pass_replay::{kind_of, stack_type};
use service_load::{RuleType, Trees};
use std::alloc::Global;

/// Adds the text of a stack call, while no other one is pending, replayed by the recorded lines of
/// its block.
pub fn write_call(
    alloc: Global,
    trees: &Trees,
    sources: &Sources,
    text: &mut String,
    number: u32,
    func: Func,
    held: &Held,
    told: &[Option<RecordedLine>],
) -> Result<(), NoMemory>
    requires bounded { AreBounded trees.now }
    ensures { OnOk result (string_bytes text.new ≡ string_bytes text.old
        ++ call_text (stacks_in trees.now) sources.now number func (held_of held.now)
        (telling (visits_in told.now))) }
{
    let past: &[Code] = &[];
    let call = Call {
        alloc,
        trees,
        sources,
        number,
        held,
        told,
        past,
    };
    match &held.pending {
        Some(pending) => {
            let past = pending.past.items();
            write_after(Call { past, ..call }, text, func, &pending.first)
        }
        None => write_after(call, text, func, &None),
    }
}

// A stack call that is replayed.
#[derive(Clone, Copy)]
struct Call<'a> {
    alloc: Global,
    trees: &'a Trees,
    sources: &'a Sources,
    // The number of its transaction.
    number: u32,
    // What is held when it begins.
    held: &'a Held,
    // The recorded lines of its block.
    told: &'a [Option<RecordedLine>],
    // The codes of its earlier calls.
    past: &'a [Code],
}

// `first` are the codes that the first pass of chauthtok cached, if its second pass is pending.
fn write_after(
    call: Call,
    text: &mut String,
    func: Func,
    first: &Option<Answers>,
) -> Result<(), NoMemory>
    requires bounded { AreBounded call.trees.now }
    ensures { OnOk result (string_bytes text.new ≡ string_bytes text.old
        ++ call_after_text (stacks_in call.entry.trees.now) call.entry.sources.now
        call.entry.number func
        call.entry.past.now (kept_answers first.now) (held_of call.entry.held.now)
        (telling (visits_in call.entry.told.now))) }
{
    if func != Func::ChAuthTok {
        return write_first(call, text, func);
    }
    write_change(call, text, first)
}

// The passes of chauthtok that are left: both, or the second one if the codes of the first are
// held.
fn write_change(call: Call, text: &mut String, first: &Option<Answers>) -> Result<(), NoMemory>
    requires bounded { AreBounded call.trees.now }
    ensures { OnOk result (string_bytes text.new ≡ string_bytes text.old
        ++ change_text (stacks_in call.entry.trees.now) call.entry.sources.now call.entry.number
        call.entry.past.now
        (kept_answers first.now) (held_of call.entry.held.now)
        (telling (visits_in call.entry.told.now))) }
{
    match first {
        Some(_) => write_second(call, text, first, 0, false),
        None => write_check(call, text),
    }
}

// The first run of a call.
fn write_first(call: Call, text: &mut String, func: Func) -> Result<(), NoMemory>
    requires bounded { AreBounded call.trees.now }
    ensures { OnOk result (string_bytes text.new ≡ string_bytes text.old
        ++ first_text (stacks_in call.entry.trees.now) call.entry.sources.now call.entry.number
        func call.entry.past.now
        (held_of call.entry.held.now) (telling (visits_in call.entry.told.now))) }
{
    let stack = stack_type(func);
    let nothing = None;
    let kept = match stack {
        RuleType::Auth => &call.held.authenticated,
        RuleType::Session => &call.held.opened,
        RuleType::Account | RuleType::Password => &nothing,
    };
    write_stack(call, text, func, stack, kind_of(func, kept), kept, 0, false)
}

// A run of the stack of a type, from a recorded line on.
fn write_stack(
    call: Call,
    text: &mut String,
    func: Func,
    stack: RuleType,
    kind: PassKind,
    follows: &Option<Answers>,
    next: usize,
    astray: bool,
) -> Result<(), NoMemory>
    requires few { lines_in (stack_of (nodes_in call.trees.now stack).vec.items) ≤ 4096 }
    ensures { OnOk result (string_bytes text.new ≡ string_bytes text.old
        ++ run_text (stacks_in call.entry.trees.now) call.entry.sources.now call.entry.number func
        stack
        (stack_of (nodes_in call.entry.trees.now stack).vec.items) kind (kept_answers follows.now)
        call.entry.past.now (telling_from call.entry.told.now next astray)) }
{
    let run = Run {
        kind,
        follows,
        past: call.past,
        told: call.told,
    };
    let rows = rows_of(call.alloc, call.trees.of(stack), run, next, astray)?;
    let origins = call.sources.of(stack).items();
    write_run(text, call.number, func, stack, kind, origins, rows.items())
}

// The first pass of chauthtok, and if that returned SUCCESS the second.
fn write_check(call: Call, text: &mut String) -> Result<(), NoMemory>
    requires bounded { AreBounded call.trees.now }
    ensures { OnOk result ((h : Holding) → string_bytes text.new ≡ string_bytes text.old
        ++ check_text (stacks_in call.entry.trees.now) call.entry.sources.now call.entry.number
        call.entry.past.now h
        (telling (visits_in call.entry.told.now))) }
{
    let (func, stack, kind) = (Func::ChAuthTok, RuleType::Password, PassKind::Keep);
    write_stack(call, text, func, stack, kind, &None, 0, false)?;
    let nodes = &call.trees.password;
    let (past, told) = (call.past, call.told);
    let passed = pass(call.alloc, nodes, kind, None, past, told, 0, false)?;
    if passed.code != Code::Success {
        return Ok(());
    }
    let Passed {
        kept,
        next,
        astray,
        ..
    } = passed;
    let past: &[Code] = &[];
    write_second(Call { past, ..call }, text, &kept, next, astray)
}

// The second pass of chauthtok, by the codes that the first cached, from a recorded line on.
fn write_second(
    call: Call,
    text: &mut String,
    first: &Option<Answers>,
    next: usize,
    astray: bool,
) -> Result<(), NoMemory>
    requires bounded { AreBounded call.trees.now }
    ensures { OnOk result (string_bytes text.new ≡ string_bytes text.old
        ++ second_text (stacks_in call.entry.trees.now) call.entry.sources.now call.entry.number
        (kept_answers first.now) call.entry.past.now
        (telling_from call.entry.told.now next astray)) }
{
    let (stack, kind) = (RuleType::Password, PassKind::Follow);
    write_stack(
        call,
        text,
        Func::ChAuthTok,
        stack,
        kind,
        first,
        next,
        astray,
    )
}

/// Adds the text of a chauthtok whose flags were refused.
pub fn write_refused(text: &mut String, number: u32) -> Result<(), NoMemory>
    ensures { OnOk result (string_bytes text.new ≡ string_bytes text.old ++ refused_text number) }
{
    write!(text, "{number} chauthtok: flags refused, no rule was run\n")?;
    Ok(())
}
