ghost use Rattle.std.specs.Prelude.{◌≡◌, ◌≤◌, IfOk};
ghost use Rattle.control_words.specs.Stack.{lines_in, stack_of};
ghost use Rattle.pass_replay.specs.dispatch_core.specs.Calls.{answers_held};
ghost use Rattle.pass_replay.specs.Kept.{kept_answers};
ghost use Rattle.pass_replay.specs.Told.{telling_from};
ghost use Rattle.explain_calls.specs.Rows.{pass_rows};

use crate::walk::walk_nodes;
use control_words::Nodes;
use explain_lines::{Fate, Rows};
use handler_chain::{Opinion, PassKind, RecordedLine};
use pam_base::{Code, NoMemory};
use pass_replay::answers::Answers;
use pass_replay::replay::begun;
use std::alloc::Global;

/// What a run of a stack is replayed from.
#[derive(Clone, Copy)]
pub struct Run<'a> {
    pub kind: PassKind,
    /// The codes that an earlier run cached.
    pub follows: &'a Option<Answers>,
    /// The codes of its call's earlier calls.
    pub past: &'a [Code],
    /// The recorded lines.
    pub told: &'a [Option<RecordedLine>],
}

/// The rows of a run of a stack, from a recorded line on.
pub fn rows_of(
    alloc: Global,
    nodes: &Nodes,
    run: Run,
    next: usize,
    astray: bool,
) -> Result<Rows, NoMemory>
    requires few { lines_in (stack_of nodes.now.vec.items) ≤ 4096 }
    ensures { IfOk result (λ rows. rows
        ≡ pass_rows run.entry.kind (answers_held (kept_answers run.entry.follows.now))
        (stack_of nodes.now.vec.items) run.entry.past.now
        (telling_from run.entry.told.now next astray)) }
{
    let mut replay = begun(alloc, next, astray);
    let mut rows = Rows::new(alloc);
    let opening = Opinion::opening();
    walk_nodes(nodes, run, opening, Fate::Waits, &mut replay, &mut rows)?;
    Ok(rows)
}
