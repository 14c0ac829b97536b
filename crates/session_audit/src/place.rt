ghost use Rattle.std.specs.Prelude.{◌≡◌, ◌||◌};
ghost use Rattle.std.specs.Option.{option_map};
ghost use Rattle.report_lines.specs.Line.{shows_code};
ghost use Rattle.pass_replay.specs.Held.{held_of};
ghost use Rattle.report_lines.specs.Form.{command_of, result_of, shown_of};
ghost use Rattle.session_audit.specs.Checked.{at_quiet, after_quiet, place_of};
ghost use Rattle.session_audit.specs.Fits.{aborted_by, at_running, at_shut, only_if, running, same_code};

use pam_base::{CallName, Code, Func};
use pass_replay::Held;
use report_lines::{ReportedAnswer, ReportedOutcome};

/// What is known of a transaction between two blocks.
#[derive(Debug, Drop)]
pub enum SlotLog {
    Closed,
    Open(Held),
}

/// What is known after a result other than the code of a stack call; None if the result doesn't
/// fit.
pub fn after_quiet(place: SlotLog, outcome: ReportedOutcome) -> Option<SlotLog>
    ensures { option_map place_of result ≡ after_quiet (place_of place) (result_of outcome) }
{
    match outcome {
        ReportedOutcome::Answered(command, answer) => match place {
            SlotLog::Closed => at_closed(command, answer),
            SlotLog::Open(held) => at_open(held, command, answer),
        },
        ReportedOutcome::Closed => match place {
            SlotLog::Closed => None,
            SlotLog::Open(_) => Some(SlotLog::Closed),
        },
    }
}

fn at_closed(command: CallName, answer: ReportedAnswer) -> Option<SlotLog>
    ensures { option_map place_of result ≡ at_shut (command_of command) (shown_of answer) }
{
    match command {
        CallName::Start => match answer {
            ReportedAnswer::Code(Code::Success) => Some(SlotLog::Open(Held::nothing())),
            ReportedAnswer::Fault => Some(SlotLog::Closed),
            _ => None,
        },
        CallName::Reply => None,
        _ => {
            if answer == ReportedAnswer::NotOpen {
                Some(SlotLog::Closed)
            } else {
                None
            }
        }
    }
}

fn at_open(held: Held, command: CallName, answer: ReportedAnswer) -> Option<SlotLog>
    ensures { option_map place_of result
        ≡ at_quiet (held_of held) (command_of command) (shown_of answer) }
{
    match answer {
        ReportedAnswer::Code(code) => after_code(held, command, code),
        ReportedAnswer::Pending(other) => match command {
            CallName::Run(func) => {
                let aborted = is_aborted(&held, func, other);
                open_if(aborted, held)
            }
            _ => None,
        },
        ReportedAnswer::Value => open_if(
            matches!(command, CallName::GetItem | CallName::GetEnv),
            held,
        ),
        ReportedAnswer::Count => open_if(command == CallName::EnvList, held),
        ReportedAnswer::AlreadyOpen => open_if(command == CallName::Start, held),
        ReportedAnswer::Fault | ReportedAnswer::NotOpen | ReportedAnswer::BadNumber => None,
    }
}

fn open_if(fits: bool, held: Held) -> Option<SlotLog>
    ensures { option_map place_of result ≡ only_if fits (running (held_of held)) }
{
    if fits {
        Some(SlotLog::Open(held))
    } else {
        None
    }
}

// Whether a call returned ABORT because this other one was pending.
fn is_aborted(held: &Held, func: Func, other: Func) -> bool
    ensures { result ≡ aborted_by (held_of held.now).pending func other }
{
    match held.pending_func() {
        Some(pending) => pending == other && pending != func,
        None => false,
    }
}

// What is known after a code of a call that runs no stack.
fn after_code(held: Held, command: CallName, code: Code) -> Option<SlotLog>
    ensures { option_map place_of result
        ≡ at_running (held_of held) (command_of command) (shows_code code) }
{
    match command {
        CallName::End => {
            if code == Code::Success {
                Some(SlotLog::Closed)
            } else {
                None
            }
        }
        CallName::SetItem | CallName::PutEnv => open_if(is_success_or_bad_item(code), held),
        CallName::GetItem => open_if(code == Code::BadItem, held),
        CallName::FailDelay | CallName::DelayFn => open_if(code == Code::Success, held),
        _ => None,
    }
}

fn is_success_or_bad_item(code: Code) -> bool
    ensures { result ≡ (same_code code Code.Success || same_code code Code.BadItem) }
{
    code == Code::Success || code == Code::BadItem
}
