ghost use Rattle.std.specs.Prelude.{◌≡◌};

use pam_base::{Code, Word};
use std::marker::Model;

/// What a line does to the state of its stack, given its deciding return code (`pam.conf(5)`;
/// libpam: `_PAM_ACTION_IGNORE` to `_PAM_ACTION_RESET`, and jumps).
#[derive(Clone, Copy, Debug, PartialEq, Eq)]
pub enum Action {
    Ignore,
    Bad,
    Die,
    Ok,
    Done,
    Reset,
    /// Skips n lines or substacks of the list, from 1 to 255.
    Jump(u8),
}

impl Word for Action {
    ghost use Rattle.control_words.specs.Control.{action_name};

    ghost spelling = { action_name };

    /// The word of the action (`pam.conf(5)`), in lower case; the empty text for a jump.
    fn word(self) -> &'static str {
        match self {
            Action::Ignore => "ignore",
            Action::Bad => "bad",
            Action::Die => "die",
            Action::Ok => "ok",
            Action::Done => "done",
            Action::Reset => "reset",
            Action::Jump(_) => "",
        }
    }
}

/// A control: one action for each of the 32 return codes. Contracts see the list of the actions, in
/// the order of the codes' numbers.
#[derive(Clone, Copy, Debug)]
pub struct Control {
    actions: [Action; 32],
}

impl Model for Control {
    ghost use Rattle.std.specs.Prelude.{List};
    ghost use Rattle.control_words.specs.declared.control.Action.{Action};

    ghost Value = { List Action };

    ghost view = { λ c. c.actions };

    ghost inverse = { λ actions. record { actions = actions } };
}

impl Control {
    ghost use Rattle.control_words.specs.Control.{action_at, usual};

    /// The action for a code.
    pub fn action(&self, code: Code) -> Action
        ensures { result ≡ action_at self.now code }
    {
        self.actions[code as usize]
    }

    /// The control with these actions, in the order of the codes' numbers.
    pub(crate) fn of_each(actions: [Action; 32]) -> Self
        ensures { result ≡ actions }
    {
        Control { actions }
    }

    /// The form of the keywords' controls: one action for SUCCESS and NEW_AUTHTOK_REQD, one for IGNORE, and
    /// one for every other code.
    pub(crate) fn usual(good: Action, passed: Action, other: Action) -> Self
        ensures { result ≡ usual good passed other }
    {
        let mut actions = [other; 32];
        actions[Code::Success as usize] = good;
        actions[Code::NewAuthtokReqd as usize] = good;
        actions[Code::Ignore as usize] = passed;
        Control { actions }
    }
}
