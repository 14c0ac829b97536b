ghost use Rattle.std.specs.Prelude.{◌≡◌, []};
ghost use Rattle.pam_library.specs.Outcome.{answers_only, plain_outcome};

use conv_port::Messages;
use pam_base::{Code, Func, Text, Texts};
use pam_handle::pam_room::Visits;
use pam_handle::service_load::LoadFault;
use pam_handle::{Told, Wait};
use std::alloc::Global;

/// What a step returns.
#[derive(Debug, Drop)]
pub enum Answer {
    /// The code of a call. Calls without a code of their own return SUCCESS.
    Code(Code),
    /// A start refused because of the configuration.
    Refused(LoadFault),
    /// An item or a variable; None if it isn't set.
    Value(Option<Text>),
    /// The environment, `NAME=VALUE` each.
    List(Texts),
    /// No transaction has this number.
    NotOpen,
    /// A transaction already has this number.
    AlreadyOpen,
    /// The number isn't 1 to 16.
    BadNumber,
    /// A reply was offered.
    Nothing,
    /// Another stack call is pending, that of this function, and has to be resumed first.
    Pending(Func),
}

/// What a step reported and returned.
#[derive(Debug, Drop)]
pub struct Outcome {
    /// The messages that this step passed to the conversation.
    pub said: Messages,
    /// The lines that it ran.
    pub trail: Visits,
    /// The number of cleanup records in the log before it: those from there on are its own, and stay in the log, which
    /// has the name of each.
    pub filed_from: u64,
    /// The wait after an authentication.
    pub wait: Option<Wait>,
    /// After a start: the missing modules that lines name.
    pub missing: Texts,
    pub answer: Answer,
}

impl Outcome {
    // A result without anything to report. Allocates nothing.
    pub(crate) fn only(alloc: Global, filed_from: u64, answer: Answer) -> Self
        ensures plain { plain_outcome result ≡ answers_only filed_from answer }
    {
        Outcome {
            said: Messages::new(alloc),
            trail: Visits::new(alloc),
            filed_from,
            wait: None,
            missing: Texts::new(alloc),
            answer,
        }
    }

    // A code without anything to report. Allocates nothing.
    pub(crate) fn code(alloc: Global, filed_from: u64, code: Code) -> Self
        ensures plain { plain_outcome result ≡ answers_only filed_from (Answer.Code code) }
    {
        Outcome::only(alloc, filed_from, Answer::Code(code))
    }

    // SUCCESS of a start, and the missing modules. Allocates nothing.
    pub(crate) fn missing(alloc: Global, filed_from: u64, missing: Texts) -> Self
        ensures plain { plain_outcome result ≡ record
            (answers_only filed_from (Answer.Code Code.Success)) { missing = missing } }
    {
        Outcome {
            said: Messages::new(alloc),
            trail: Visits::new(alloc),
            filed_from,
            wait: None,
            missing,
            answer: Answer::Code(Code::Success),
        }
    }

    // A result, and what is to report. Allocates nothing.
    pub(crate) fn telling(alloc: Global, filed_from: u64, told: Told, answer: Answer) -> Self
        ensures plain { plain_outcome result ≡ record {
          said = told.said;
          trail = told.trail.visits;
          filed_from = filed_from;
          wait = told.wait;
          missing = [];
          answer = answer;
        } }
    {
        Outcome {
            said: told.said,
            trail: told.trail,
            filed_from,
            wait: told.wait,
            missing: Texts::new(alloc),
            answer,
        }
    }
}
