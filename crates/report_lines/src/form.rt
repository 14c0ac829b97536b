use handler_chain::RecordedLine;
use pam_base::{CallName, Code, Func};

/// The result of a command. What is only checked for its format is left out: why a start was
/// refused, the value, the count.
#[derive(Clone, Copy, Debug, PartialEq, Eq)]
pub enum ReportedAnswer {
    Code(Code),
    Fault,
    Value,
    Count,
    NotOpen,
    AlreadyOpen,
    BadNumber,
    Pending(Func),
}

/// The result of a command, or of a transaction that the program ended.
#[derive(Clone, Copy, Debug, PartialEq, Eq)]
pub enum ReportedOutcome {
    Answered(CallName, ReportedAnswer),
    Closed,
}

/// What a line says, as far as the checker needs it.
#[derive(Debug, Drop)]
pub enum Form {
    /// A line before the result, of the transaction with this number: a line of a stack that was
    /// run, or another.
    Told {
        number: u32,
        visit: Option<RecordedLine>,
    },
    Result {
        number: u32,
        outcome: ReportedOutcome,
    },
    /// The last line of a run that ended early.
    Last,
}
