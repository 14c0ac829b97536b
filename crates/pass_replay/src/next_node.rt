ghost use Rattle.std.specs.Prelude.{◌≡◌, if◌then◌else◌, nat_le};
ghost use Rattle.handler_chain.specs.Opinion.{overrun};
ghost use Rattle.handler_chain.specs.Walk.{next_of, new_or_overrun};
ghost use Rattle.pass_replay.specs.Walk.{skip_of};

use control_words::Action;
use handler_chain::Opinion;

/// Where a list goes on after a line: the state, and how many of its nodes are skipped, which is
/// all that are left if the list ends.
#[derive(Clone, Copy, Debug)]
pub struct NextNode {
    pub opinion: Opinion,
    pub skip: usize,
}

/// Where a list with `left` nodes left goes on, after an action that led to a state.
pub fn next_node_after(action: Action, left: usize, new: Opinion) -> NextNode
    ensures opinion { result.opinion ≡ new_or_overrun action left new }
    ensures skip { result.skip ≡ skip_of (next_of action left new) left }
{
    if let Action::Jump(number) = action {
        return jumped(usize::from(number), left, new);
    }
    let skip = if new.ends(action) { left } else { 0 };
    NextNode { opinion: new, skip }
}

// After a jump; one over more nodes than are left ends the list.
fn jumped(number: usize, left: usize, new: Opinion) -> NextNode
    ensures opinion { result.opinion ≡ (if nat_le number left then new else overrun) }
    ensures skip { result.skip ≡ (if nat_le number left then number else left) }
{
    if number <= left {
        return NextNode {
            opinion: new,
            skip: number,
        };
    }
    NextNode {
        opinion: Opinion::overrun(),
        skip: left,
    }
}
