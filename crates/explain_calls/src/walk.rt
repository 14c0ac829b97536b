ghost use Rattle.std.specs.Prelude.{◌≡◌, ◌<◌, ◌≤◌, ◌+◌, ◌++◌, IfOk, OnOk, length};
ghost use Rattle.control_words.specs.Stack.{Stack, count, line, lines_in, node_on, none, stack_of};
ghost use Rattle.pass_replay.specs.dispatch_core.specs.Calls.{answers_held};
ghost use Rattle.handler_chain.specs.Pass.{serving};
ghost use Rattle.handler_chain.specs.Retell.{replaying};
ghost use Rattle.handler_chain.specs.Walk.{walk};
ghost use Rattle.pass_replay.specs.Kept.{kept_answers};
ghost use Rattle.pass_replay.specs.Walk.{WalkEnds, state_in};
ghost use Rattle.explain_calls.specs.Rows.{last_of, rows, rows_after, rows_over};
ghost use Rattle.explain_calls.specs.Walk.{after_turn};

use crate::runs::Run;
use crate::turn::{Turn, why_after};
use control_words::{Node, Nodes, Rule};
use explain_lines::{Fate, Row, Rows};
use handler_chain::Opinion;
use pam_base::NoMemory;
use pass_replay::next_node::next_node_after;
use pass_replay::replay::{Replay, next_answer};
use pass_replay::walk::decide;

// Adds the rows of lines that weren't run, the first of which has the rule number `at` + 1. Returns
// the rule number of the last one.
fn pass_over(nodes: &[Node], why: Fate, at: usize, shown: &mut Rows) -> Result<usize, NoMemory>
    requires few { at + lines_in (stack_of nodes.now) ≤ 4096 }
    ensures shows { OnOk result (shown.new ≡ shown.old
        ++ rows_over why (at + 1) (stack_of nodes.now)) }
    ensures at { IfOk result (λ last. last ≡ at + lines_in (stack_of nodes.now)) }
{
    let mut last = at;
    for node in nodes {
        match node {
            Node::Line(rule) => {
                last += 1;
                shown.push(Row::of(rule, last, why)?)?;
            }
            Node::Sub(inner) => last = pass_over(inner.items(), why, last, shown)?,
        }
    }
    Ok(last)
}

fn pass_over_node(node: &Node, why: Fate, at: usize, shown: &mut Rows) -> Result<usize, NoMemory>
    requires few { at + lines_in (node_on node.now none) ≤ 4096 }
    ensures shows { OnOk result (shown.new ≡ shown.old
        ++ rows_over why (at + 1) (node_on node.now none)) }
    ensures at { IfOk result (λ last. last ≡ at + lines_in (node_on node.now none)) }
{
    match node {
        Node::Line(rule) => {
            shown.push(Row::of(rule, at + 1, why)?)?;
            Ok(at + 1)
        }
        Node::Sub(inner) => pass_over(inner.items(), why, at, shown),
    }
}

// Adds the rows of the last nodes of a list, which weren't reached.
fn pass_over_last(
    nodes: &[Node],
    left: usize,
    at: usize,
    shown: &mut Rows,
) -> Result<usize, NoMemory>
    requires left { left ≤ length nodes.now }
    requires few { at + lines_in (stack_of (last_of left nodes.now)) ≤ 4096 }
    ensures shows { OnOk result (shown.new ≡ shown.old ++ rows_over Fate.Unreached (at + 1)
        (stack_of (last_of left nodes.now))) }
    ensures at { IfOk result (λ last. last
        ≡ at + lines_in (stack_of (last_of left nodes.now))) }
{
    pass_over(&nodes[nodes.len() - left..], Fate::Unreached, at, shown)
}

// Walks the present line, after which `left` nodes of its list are left, and adds its row; None if
// the walk waits there.
fn walk_line(
    rule: &Rule,
    left: usize,
    run: Run,
    entry: Opinion,
    opinion: Opinion,
    why: Fate,
    replay: &mut Replay,
    shown: &mut Rows,
) -> Result<Option<Turn>, NoMemory>
    requires few { replay.old.at < 4096 }
    ensures goes { IfOk result (λ turn. (rest : Stack) → count rest ≡ left →
        walk run.entry.kind
        (serving run.entry.kind (answers_held (kept_answers run.entry.follows.now)) replaying)
        0 (line rule.now rest) (replay.old.at + 1) entry opinion
        (state_in run.entry.past.now run.entry.told.now replay.old)
        ≡ after_turn run.entry.kind
        (serving run.entry.kind (answers_held (kept_answers run.entry.follows.now)) replaying)
        rest (replay.old.at + 1 + 1) entry opinion turn
        (state_in run.entry.past.now run.entry.told.now replay.new)) }
    ensures shows { IfOk result (λ turn. (rest : Stack) → count rest ≡ left →
        shown.old ++ rows run.entry.kind
        (serving run.entry.kind (answers_held (kept_answers run.entry.follows.now)) replaying)
        0 why (line rule.now rest) (replay.old.at + 1) entry opinion
        (state_in run.entry.past.now run.entry.told.now replay.old)
        ≡ shown.new ++ rows_after run.entry.kind
        (serving run.entry.kind (answers_held (kept_answers run.entry.follows.now)) replaying)
        rest (replay.old.at + 1 + 1) entry turn
        (state_in run.entry.past.now run.entry.told.now replay.new)) }
    ensures at { OnOk result (replay.new.at ≡ replay.old.at + 1) }
{
    let Some(answer) = next_answer(rule, run.past, run.told, replay)? else {
        replay.at += 1;
        shown.push(Row::of(rule, replay.at, Fate::Waits)?)?;
        return Ok(None);
    };
    replay.at += 1;
    let deciding = decide(run.kind, run.follows, replay.at, answer);
    let action = rule.control.action(deciding);
    let new = opinion.after(run.kind, action, answer, deciding, entry);
    let onward = next_node_after(action, left, new);
    let state = onward.opinion;
    let fate = Fate::Ran {
        answer,
        deciding,
        action,
        state,
    };
    shown.push(Row::of(rule, replay.at, fate)?)?;
    Ok(Some(Turn {
        opinion: state,
        skip: onward.skip,
        why: why_after(action, left, new, replay.at),
    }))
}

/// Walks a list from a state, which is also that at its entry, and adds the rows of its lines; None
/// if the walk waits at one of them.
pub fn walk_nodes(
    nodes: &Nodes,
    run: Run,
    entry: Opinion,
    reason: Fate,
    replay: &mut Replay,
    shown: &mut Rows,
) -> Result<Option<Opinion>, NoMemory>
    requires few { replay.old.at + lines_in (stack_of nodes.now.vec.items) ≤ 4096 }
    ensures comes { IfOk result (λ end. WalkEnds
        (walk run.entry.kind
        (serving run.entry.kind (answers_held (kept_answers run.entry.follows.now)) replaying)
        0 (stack_of nodes.now.vec.items) (replay.old.at + 1) entry entry
        (state_in run.entry.past.now run.entry.told.now replay.old))
        end (state_in run.entry.past.now run.entry.told.now replay.new)) }
    ensures shows { OnOk result (shown.new ≡ shown.old ++ rows run.entry.kind
        (serving run.entry.kind (answers_held (kept_answers run.entry.follows.now)) replaying)
        0 reason (stack_of nodes.now.vec.items) (replay.old.at + 1) entry entry
        (state_in run.entry.past.now run.entry.told.now replay.old)) }
    ensures at { OnOk result (replay.new.at
        ≡ replay.old.at + lines_in (stack_of nodes.now.vec.items)) }
{
    let mut opinion = entry;
    let mut why = reason;
    let mut skip = 0;
    let all = nodes.items();
    let mut left = nodes.len();
    for node in all {
        left -= 1;
        if skip > 0 {
            skip -= 1;
            replay.at = pass_over_node(node, why, replay.at, shown)?;
        } else {
            match node {
                Node::Line(rule) => {
                    let Some(turn) = walk_line(rule, left, run, entry, opinion, why, replay, shown)?
                    else {
                        replay.at = pass_over_last(all, left, replay.at, shown)?;
                        return Ok(None);
                    };
                    opinion = turn.opinion;
                    skip = turn.skip;
                    why = turn.why;
                }
                Node::Sub(inner) => {
                    let Some(inside) = walk_nodes(inner, run, opinion, why, replay, shown)? else {
                        replay.at = pass_over_last(all, left, replay.at, shown)?;
                        return Ok(None);
                    };
                    opinion = inside;
                }
            }
        }
    }
    Ok(Some(opinion))
}
