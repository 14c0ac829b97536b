use crate::entry_states::EntryStates;
use crate::next_line::next_line_after;
use handler_chain::{Chain, Opinion, PassKind};
use pam_base::Code;

/// Where a pass is: the index of its next line, the state of the stack, and the states with which
/// the lists around it were entered.
#[derive(Clone, Copy)]
pub struct Walker {
    pub at: usize,
    pub opinion: Opinion,
    pub entries: EntryStates,
}

impl Walker {
    ghost use Rattle.std.specs.Prelude.{◌≡◌, ◌<◌, ◌≤◌, ◌+◌, ℕ};
    ghost use Rattle.control_words.specs.Stack.{lines_in};
    ghost use Rattle.handler_chain.specs.FlatLines.{FlatLine};
    ghost use Rattle.handler_chain.specs.Opinion.{opening};
    ghost use Rattle.dispatch_core.specs.EntryStates.{entry_at};
    ghost use Rattle.dispatch_core.specs.Index.{GoesOn, IsLineAt};

    /// Before the first line.
    pub fn new() -> Self
        ensures at { result.at ≡ 0 }
        ensures opinion { result.opinion ≡ opening }
        ensures entries { (level : ℕ) → entry_at result.entries level ≡ opening }
    {
        Walker {
            at: 0,
            opinion: Opinion::opening(),
            entries: EntryStates::new(),
        }
    }

    /// Acts on the next line, which has returned, and moves to the line with which its list
    /// continues.
    pub fn go_on(&mut self, chain: &mut Chain, kind: PassKind, answer: Code, deciding: Code)
        requires { self.old.at < lines_in chain.old.nodes }
        ensures goes { (line : FlatLine) → IsLineAt chain.old.nodes self.old.at line →
            GoesOn kind line answer deciding self.old self.new }
        ensures ahead { self.old.at < self.new.at }
        ensures nodes { chain.new.nodes ≡ chain.old.nodes }
        ensures names { chain.new.names ≡ chain.old.names }
        ensures looks { chain.new.looks ≤ chain.old.looks + 4 }
    {
        let i = self.at;
        // A law, with nothing to do at run time: a stack has fewer than 4,097 lines.
        let _few = chain.len();
        let level = chain.level(i) as usize;
        let opens = chain.opens(i) as usize;
        self.entries.enter(level, opens, self.opinion);
        let action = chain.control(i).action(deciding);
        let entry = self.entries.at(level);
        let new = self.opinion.after(kind, action, answer, deciding, entry);
        let next = next_line_after(chain, i, action, new);
        self.opinion = next.opinion;
        self.at = next.index;
    }
}
