ghost use Rattle.std.specs.Prelude.{◌≡◌};
ghost use Rattle.handler_chain.specs.Walk.{next_of};
ghost use Rattle.explain_calls.specs.Rows.{why_by};

use control_words::Action;
use explain_lines::Fate;
use handler_chain::Opinion;

/// Where a list goes on after a line: the state, how many of its nodes are skipped, which is
/// all that are left if the list ends, and why they are.
#[derive(Clone, Copy, Debug)]
pub struct Turn {
    pub opinion: Opinion,
    pub skip: usize,
    pub why: Fate,
}

/// Why nodes are skipped after the line of a rule with this number, whose action led to a
/// state, if `left` nodes of its list are left.
pub fn why_after(action: Action, left: usize, new: Opinion, place: usize) -> Fate
    ensures { result ≡ why_by (next_of action left new) place }
{
    if let Action::Jump(number) = action {
        if usize::from(number) <= left {
            return Fate::Jumped { by: place };
        }
        return Fate::Ended { by: place };
    }
    if new.ends(action) {
        return Fate::Ended { by: place };
    }
    Fate::Jumped { by: place }
}
