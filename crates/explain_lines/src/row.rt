ghost use Rattle.std.specs.Prelude.{◌≡◌, IfOk};
ghost use Rattle.explain_lines.specs.Rows.{row_of};

use control_words::{Action, Rule};
use handler_chain::Opinion;
use pam_base::{Code, NoMemory, Sequence, SharedText};

/// What became of a line of a stack.
#[derive(Clone, Copy, Debug)]
pub enum Fate {
    /// Its module was run.
    Ran {
        /// What it returned.
        answer: Code,
        /// The code that picked the action: the same, or a cached one.
        deciding: Code,
        action: Action,
        /// The state of the stack after it.
        state: Opinion,
    },
    /// Its module was run, and the call waits at this line.
    Waits,
    /// The rule with this number jumped over it.
    Jumped {
        by: usize,
    },
    /// The rule with this number ended its list.
    Ended {
        by: usize,
    },
    /// The call waits at a rule before it.
    Unreached,
}

/// A line of a stack, and what became of it.
#[derive(Debug, Drop)]
pub struct Row {
    /// Its rule number, from 1.
    pub place: usize,
    /// The module's path, as it is written.
    pub path: SharedText,
    pub fate: Fate,
}

/// The lines of a stack, in their order.
pub type Rows = Sequence<Row>;

impl Row {
    pub fn of(rule: &Rule, place: usize, fate: Fate) -> Result<Row, NoMemory>
        ensures { IfOk result (λ row. row ≡ row_of place rule.now fate) }
    {
        Ok(Row {
            place,
            path: rule.path.share()?,
            fate,
        })
    }
}
