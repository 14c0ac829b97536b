ghost use Rattle.std.specs.Prelude.{◌≡◌, ◌≤◌, List, Option, IfOk};
ghost use Rattle.control_words.specs.Stack.{lines_in, stack_of};
ghost use Rattle.dispatch_core.specs.Calls.{answers_held, cached_after, passed_by};
ghost use Rattle.handler_chain.specs.Pass.{PassState, answers_of, pass_after};
ghost use Rattle.handler_chain.specs.Retell.{Telling, replaying};
ghost use Rattle.handler_chain.specs.Walk.{Walked};
ghost use Rattle.pass_replay.specs.Kept.{kept_answers, visits_of};
ghost use Rattle.pass_replay.specs.Passed.{ended_code, ended_paused, passed_of};
ghost use Rattle.pass_replay.specs.Told.{telling_from};
ghost use Rattle.pass_replay.specs.Walk.{WalkEnds, state_in};

use crate::answers::Answers;
use crate::passed::Passed;
use crate::replay::{Replay, begun};
use crate::visited::Visited;
use crate::walk::walk_nodes;
use control_words::Nodes;
use handler_chain::{Opinion, PassKind, RecordedLine};
use pam_base::{Code, NoMemory, Sequence};
use std::alloc::Global;

/// Replays a pass, after the codes of its earlier calls, by the recorded lines from one on.
pub fn pass(
    alloc: Global,
    nodes: &Nodes,
    kind: PassKind,
    follows: Option<Answers>,
    past: &[Code],
    told: &[Option<RecordedLine>],
    next: usize,
    astray: bool,
) -> Result<Passed, NoMemory>
    requires few { lines_in (stack_of nodes.now.vec.items) ≤ 4096 }
    ensures { IfOk result (λ passed. passed_of told.now passed
        ≡ passed_by kind (kept_answers follows)
        (pass_after kind (answers_held (kept_answers follows)) replaying
        (stack_of nodes.now.vec.items) past.now (telling_from told.now next astray))) }
{
    let mut replay = begun(alloc, next, astray);
    let opening = Opinion::opening();
    let end = walk_nodes(nodes, kind, &follows, opening, past, told, &mut replay)?;
    finish(alloc, kind, follows, end, replay)
}

// The result of a walk that ended in a state, or is incomplete.
fn finish(
    alloc: Global,
    kind: PassKind,
    follows: Option<Answers>,
    end: Option<Opinion>,
    replay: Replay,
) -> Result<Passed, NoMemory>
    ensures { IfOk result (λ passed. (past : List Code) (told : List (Option RecordedLine))
        (walked : Walked (PassState Telling)) → WalkEnds walked end (state_in past told replay) →
        passed_of told passed ≡ passed_by kind (kept_answers follows) walked) }
{
    let kept = cached_after(alloc, kind, replay.visits.items(), follows)?;
    let paused = paused_after(alloc, end, replay.visits.items())?;
    Ok(Passed {
        code: code_of(end),
        kept,
        paused,
        next: replay.next,
        astray: replay.astray,
    })
}

fn code_of(end: Option<Opinion>) -> Code
    ensures { result ≡ ended_code end }
{
    match end {
        Some(opinion) => opinion.verdict(),
        None => Code::Incomplete,
    }
}

fn cached_after(
    alloc: Global,
    kind: PassKind,
    visits: &[Visited],
    follows: Option<Answers>,
) -> Result<Option<Answers>, NoMemory>
    ensures { IfOk result (λ kept. kept_answers kept
        ≡ cached_after kind (visits_of visits.now) (kept_answers follows)) }
{
    match kind {
        PassKind::Keep => Ok(Some(Answers::of(alloc, visits)?)),
        PassKind::Follow => Ok(follows),
        PassKind::Loose => Ok(None),
    }
}

fn paused_after(
    alloc: Global,
    end: Option<Opinion>,
    visits: &[Visited],
) -> Result<Option<Sequence<Code>>, NoMemory>
    ensures { IfOk result (λ paused. paused ≡ ended_paused end (visits_of visits.now)) }
{
    match end {
        Some(_) => Ok(None),
        None => Ok(Some(answers_of(alloc, visits)?)),
    }
}

// The codes of lines that were run, in order.
fn answers_of(alloc: Global, visits: &[Visited]) -> Result<Sequence<Code>, NoMemory>
    ensures { IfOk result (λ answers. answers ≡ answers_of (visits_of visits.now)) }
{
    let mut answers = Sequence::new(alloc);
    for visit in visits {
        answers.push(visit.answer)?;
    }
    Ok(answers)
}
