use crate::impression::Impression;
use crate::pass_kind::PassKind;
use control_words::Action;
use pam_base::Code;

/// The state of a stack: an impression, and the code that it would return (libpam: `impression` and
/// `status`).
#[derive(Clone, Copy, Debug, PartialEq, Eq)]
pub struct Opinion {
    pub impression: Impression,
    pub status: Code,
}

impl Opinion {
    ghost use Rattle.std.specs.Prelude.{◌≡◌};
    ghost use Rattle.handler_chain.specs.Opinion.{acted, bad, good, good_by, jumped, opening, overrun, verdict};
    ghost use Rattle.handler_chain.specs.Walk.{ends};

    /// The state before the first line: undefined, PAM_PERM_DENIED.
    pub fn opening() -> Self
        ensures { result ≡ opening }
    {
        Opinion {
            impression: Impression::Undefined,
            status: Code::PermDenied,
        }
    }

    /// The state after a jump over more nodes than are left in its list: negative, PAM_PERM_DENIED.
    pub fn overrun() -> Self
        ensures { result ≡ overrun }
    {
        Opinion {
            impression: Impression::Negative,
            status: Code::PermDenied,
        }
    }

    /// The state after the action that a line's deciding code picked; `answer` is the line's
    /// present code, and `entry` the state in which its list was entered.
    pub fn after(
        self,
        kind: PassKind,
        action: Action,
        answer: Code,
        deciding: Code,
        entry: Self,
    ) -> Self
        ensures { result ≡ acted kind action answer deciding entry self }
    {
        match action {
            Action::Ignore => self,
            Action::Ok | Action::Done => self.approved_by(deciding, answer),
            Action::Bad | Action::Die => self.refused(answer),
            Action::Reset => entry,
            Action::Jump(_) => self.jumped(kind, answer),
        }
    }

    /// Whether the list ends after a line with this action, if this is the state after it.
    pub fn ends(self, action: Action) -> bool
        ensures { result ≡ ends action self }
    {
        match action {
            Action::Die => true,
            Action::Done => self.impression != Impression::Negative,
            _ => false,
        }
    }

    /// The return code of the whole stack: PAM_PERM_DENIED instead of PAM_SUCCESS unless the
    /// impression is positive.
    pub fn verdict(self) -> Code
        ensures { result ≡ verdict self }
    {
        match (self.impression, self.status) {
            (Impression::Undefined | Impression::Negative, Code::Success) => Code::PermDenied,
            _ => self.status,
        }
    }

    fn approved(self, answer: Code) -> Self
        ensures { result ≡ good self.impression self.status answer }
    {
        match (self.impression, self.status) {
            (Impression::Undefined, _) | (Impression::Positive, Code::Success) => Opinion {
                impression: Impression::Positive,
                status: answer,
            },
            _ => self,
        }
    }

    fn approved_by(self, deciding: Code, answer: Code) -> Self
        ensures { result ≡ good_by deciding self.impression self.status answer }
    {
        if answer == Code::Ignore && deciding != Code::Ignore {
            self
        } else {
            self.approved(answer)
        }
    }

    fn refused(self, answer: Code) -> Self
        ensures { result ≡ bad self.impression self.status answer }
    {
        if self.impression == Impression::Negative {
            return self;
        }
        let status = match answer {
            Code::Ignore => Code::PermDenied,
            _ => answer,
        };
        Opinion {
            impression: Impression::Negative,
            status,
        }
    }

    fn jumped(self, kind: PassKind, answer: Code) -> Self
        ensures { result ≡ jumped kind self.impression self.status answer }
    {
        if kind == PassKind::Keep || answer == Code::Ignore {
            self
        } else {
            self.approved(answer)
        }
    }
}
