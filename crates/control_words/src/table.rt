ghost use Rattle.std.specs.Prelude.{◌≡◌, ◌<◌, [], IfErr, OnOk};
ghost use Rattle.pam_base.specs.Code.{number_of};
ghost use Rattle.control_words.specs.Bracket.{fault_of_entry};
ghost use Rattle.control_words.specs.Table.{filled, all_actions, table_of};

use crate::action_words::action_named;
use crate::bracket::ControlFault;
use crate::control::{Action, Control};
use pam_base::{Code, FaultKind, code_named};

/// What the entries that were read say: an action for each code that one of them names, in the
/// order of the codes' numbers, and the action of `default`.
#[derive(Clone, Copy)]
pub(crate) struct Table {
    named: [Option<Action>; 32],
    default: Option<Action>,
}

impl Table {
    pub(crate) fn new() -> Self
        ensures { result ≡ table_of [] }
    {
        Table {
            named: [None; 32],
            default: None,
        }
    }

    /// Adds an entry. After a fault the table must not be used.
    pub(crate) fn fill(&mut self, name: &[u8], action: &[u8]) -> Result<(), ControlFault>
        ensures fine { OnOk result (fault_of_entry (record { name = name.now; action = action.now })
            ≡ None) }
        ensures filled { OnOk result (self.new ≡ filled self.old
            (record { name = name.now; action = action.now })) }
        ensures fault { IfErr result (λ fault. fault_of_entry
            (record { name = name.now; action = action.now }) ≡ Some fault) }
    {
        if name.is_empty() || action.is_empty() {
            return Err(ControlFault::of(FaultKind::BadControl));
        }
        if name.eq_ignore_ascii_case(b"default") {
            self.default = Some(action_named(action)?);
        } else if let Some(code) = code_named(name) {
            let place = place_of(code);
            self.named[place] = Some(action_named(action)?);
        } else {
            return Err(ControlFault::of(FaultKind::BadReturnName));
        }
        Ok(())
    }

    /// The control that the entries give.
    pub(crate) fn control(&self) -> Control
        ensures { result ≡ all_actions self.now }
    {
        let mut actions = [Action::Bad; 32];
        for (place, named) in self.named.iter().enumerate() {
            actions[place] = named.or(self.default).unwrap_or(Action::Bad);
        }
        Control::of_each(actions)
    }
}

// The index of a code among the 32, from 0.
fn place_of(code: Code) -> usize
    ensures number { result ≡ number_of code }
    ensures inside { result < 32 }
{
    code as usize
}
