ghost use Rattle.std.specs.Prelude.{◌≡◌, ◌<◌, ◌≤◌, ◌+◌};
ghost use Rattle.control_words.specs.Stack.{lines_in};
ghost use Rattle.handler_chain.specs.FlatLines.{FlatLine};
ghost use Rattle.dispatch_core.specs.Index.{LeadsTo, IsLineAt};

use control_words::Action;
use handler_chain::{Chain, Opinion};

/// Where a list goes on after a line, and in what state.
#[derive(Clone, Copy)]
pub struct NextLine {
    pub opinion: Opinion,
    pub index: usize,
}

/// Where the list of a line goes on after it, after an action that led to a state.
pub fn next_line_after(chain: &mut Chain, i: usize, action: Action, new: Opinion) -> NextLine
    requires within { i < lines_in chain.old.nodes }
    requires few { i < 4096 }
    ensures leads { (line : FlatLine) → IsLineAt chain.old.nodes i line →
        LeadsTo action line.rest new i result.opinion result.index }
    ensures ahead { i < result.index }
    ensures nodes { chain.new.nodes ≡ chain.old.nodes }
    ensures names { chain.new.names ≡ chain.old.names }
    ensures looks { chain.new.looks ≤ chain.old.looks + 2 }
{
    if let Action::Jump(n) = action {
        return match chain.target(i, n) {
            Some(index) => NextLine {
                opinion: new,
                index,
            },
            None => {
                let denied = Opinion::overrun();
                let end = chain.end(i);
                NextLine {
                    opinion: denied,
                    index: end,
                }
            }
        };
    }
    if new.ends(action) {
        let past_end = chain.end(i);
        return NextLine {
            opinion: new,
            index: past_end,
        };
    }
    NextLine {
        opinion: new,
        index: i + 1,
    }
}
