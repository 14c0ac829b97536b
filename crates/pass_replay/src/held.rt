ghost use Rattle.std.specs.Prelude.{◌≡◌};
ghost use Rattle.dispatch_core.specs.Calls.{nothing_held};
ghost use Rattle.dispatch_core.specs.Pending.{is_other_pending, pending_func};
ghost use Rattle.pass_replay.specs.Held.{held_of};

use crate::answers::Answers;
use pam_base::{Code, Func, Sequence};

/// An incomplete stack call.
#[derive(Debug, Drop)]
pub struct Pending {
    pub func: Func,
    /// The return codes in the incomplete pass, over all its calls.
    pub past: Sequence<Code>,
    /// If that is the second pass of chauthtok, the codes that the first one cached.
    pub first: Option<Answers>,
}

/// What a transaction holds between its calls: the codes that its last authenticate and its last
/// open_session cached, and the pending stack call. Contracts read it by `held_of`.
#[derive(Debug, Drop)]
pub struct Held {
    pub authenticated: Option<Answers>,
    pub opened: Option<Answers>,
    pub pending: Option<Pending>,
}

impl Held {
    /// What a transaction holds that was just started. It does not allocate.
    pub fn nothing() -> Self
        ensures { held_of result ≡ nothing_held }
    {
        Held {
            authenticated: None,
            opened: None,
            pending: None,
        }
    }

    /// The function of the pending stack call.
    pub fn pending_func(&self) -> Option<Func>
        ensures { result ≡ pending_func (held_of self.now).pending }
    {
        match &self.pending {
            Some(pending) => Some(pending.func),
            None => None,
        }
    }

    /// Whether another stack call than this function's is pending.
    pub fn is_other_pending(&self, func: Func) -> bool
        ensures { result ≡ is_other_pending (held_of self.now).pending func }
    {
        match &self.pending {
            Some(pending) => pending.func != func,
            None => false,
        }
    }
}
