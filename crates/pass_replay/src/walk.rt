ghost use Rattle.std.specs.Prelude.{◌≡◌, ◌<◌, ◌≤◌, ◌+◌, IfOk, IfSome};
ghost use Rattle.control_words.specs.Stack.{Stack, count, line, lines_in, node_on, none, stack_of};
ghost use Rattle.dispatch_core.specs.Calls.{answers_held};
ghost use Rattle.handler_chain.specs.Pass.{decides, serving};
ghost use Rattle.handler_chain.specs.Retell.{replaying};
ghost use Rattle.handler_chain.specs.Walk.{walk};
ghost use Rattle.pass_replay.specs.Kept.{kept_answers};
ghost use Rattle.pass_replay.specs.Walk.{WalkEnds, after_line, state_in};

use crate::answers::Answers;
use crate::next_node::{NextNode, next_node_after};
use crate::replay::{Replay, next_answer};
use control_words::{Node, Nodes, Rule};
use handler_chain::{Opinion, PassKind, RecordedLine};
use pam_base::{Code, NoMemory};

// How many lines a list has, including those of its substacks.
fn line_count(nodes: &Nodes) -> usize
    requires few { lines_in (stack_of nodes.now.vec.items) ≤ 4096 }
    ensures { result ≡ lines_in (stack_of nodes.now.vec.items) }
{
    let mut lines = 0;
    for node in &nodes.vec {
        match node {
            Node::Line(_) => lines += 1,
            Node::Sub(inner) => lines += line_count(inner),
        }
    }
    lines
}

fn lines_of(node: &Node) -> usize
    requires few { lines_in (node_on node.now none) ≤ 4096 }
    ensures { result ≡ lines_in (node_on node.now none) }
{
    match node {
        Node::Line(_) => 1,
        Node::Sub(inner) => line_count(inner),
    }
}

/// The code that decides the action of the line with this rule number.
pub fn decide(kind: PassKind, follows: &Option<Answers>, place: usize, answer: Code) -> Code
    ensures { result ≡ decides kind (answers_held (kept_answers follows.now)) place answer }
{
    match kind {
        PassKind::Follow => held_at(follows, place).unwrap_or(answer),
        PassKind::Keep | PassKind::Loose => answer,
    }
}

fn held_at(follows: &Option<Answers>, place: usize) -> Option<Code>
    ensures { result ≡ answers_held (kept_answers follows.now) place }
{
    match follows {
        Some(kept) => kept.at(place),
        None => None,
    }
}

// Walks the present line, after which `left` nodes of its list are left; None if the walk is
// incomplete there.
fn walk_line(
    rule: &Rule,
    left: usize,
    kind: PassKind,
    follows: &Option<Answers>,
    entry: Opinion,
    opinion: Opinion,
    past: &[Code],
    told: &[Option<RecordedLine>],
    replay: &mut Replay,
) -> Result<Option<NextNode>, NoMemory>
    requires few { replay.old.at < 4096 }
    ensures goes { IfOk result (λ onward. (rest : Stack) → count rest ≡ left →
        walk kind (serving kind (answers_held (kept_answers follows.now)) replaying)
        0 (line rule.now rest) (replay.old.at + 1) entry opinion
        (state_in past.now told.now replay.old)
        ≡ after_line kind (serving kind (answers_held (kept_answers follows.now)) replaying)
        rest (replay.old.at + 1 + 1) entry opinion onward
        (state_in past.now told.now replay.new)) }
    ensures at { IfOk result (λ onward. IfSome onward (λ _. replay.new.at ≡ replay.old.at + 1)) }
{
    let Some(answer) = next_answer(rule, past, told, replay)? else {
        return Ok(None);
    };
    replay.at += 1;
    let deciding = decide(kind, follows, replay.at, answer);
    let action = rule.control.action(deciding);
    let new = opinion.after(kind, action, answer, deciding, entry);
    Ok(Some(next_node_after(action, left, new)))
}

/// Walks a list from a state, which is also that at its entry; None if the walk is incomplete.
///
/// Each line of the list is walked once.
pub fn walk_nodes(
    nodes: &Nodes,
    kind: PassKind,
    follows: &Option<Answers>,
    entry: Opinion,
    past: &[Code],
    told: &[Option<RecordedLine>],
    replay: &mut Replay,
) -> Result<Option<Opinion>, NoMemory>
    requires few { replay.old.at + lines_in (stack_of nodes.now.vec.items) ≤ 4096 }
    ensures comes { IfOk result (λ end. WalkEnds
        (walk kind (serving kind (answers_held (kept_answers follows.now)) replaying)
        0 (stack_of nodes.now.vec.items) (replay.old.at + 1) entry entry
        (state_in past.now told.now replay.old))
        end (state_in past.now told.now replay.new)) }
    ensures at { IfOk result (λ end. IfSome end (λ _. replay.new.at
        ≡ replay.old.at + lines_in (stack_of nodes.now.vec.items))) }
{
    let mut opinion = entry;
    let mut skip = 0;
    let mut left = nodes.len();
    for node in &nodes.vec {
        left -= 1;
        if skip > 0 {
            skip -= 1;
            replay.at += lines_of(node);
        } else {
            match node {
                Node::Line(rule) => {
                    let Some(onward) = walk_line(
                        rule, left, kind, follows, entry, opinion, past, told, replay,
                    )?
                    else {
                        return Ok(None);
                    };
                    opinion = onward.opinion;
                    skip = onward.skip;
                }
                Node::Sub(inner) => {
                    let Some(inside) = walk_nodes(
                        inner, kind, follows, opinion, past, told, replay,
                    )?
                    else {
                        return Ok(None);
                    };
                    opinion = inside;
                }
            }
        }
    }
    Ok(Some(opinion))
}
