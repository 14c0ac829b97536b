ghost use Rattle.std.specs.Prelude.{◌≡◌, ◌&&◌, [], not, nat_eq, IfOk};
ghost use Rattle.service_load.specs.Load.{AreBounded};
ghost use Rattle.pass_replay.specs.Held.{held_of};
ghost use Rattle.pass_replay.specs.Retold.{stacks_in};
ghost use Rattle.report_lines.specs.Line.{answered, runs, shows_code};
ghost use Rattle.report_lines.specs.Form.{result_of};
ghost use Rattle.session_audit.specs.Checked.{IsCall, IsJudged, Judges, after_quiet, place_of, told_in};
ghost use Rattle.session_audit.specs.Differs.{lines_before};
ghost use Rattle.session_audit.specs.Fits.{is_refused_change, running, same_code, visits_told, without_visits};

use crate::place::{SlotLog, after_quiet};
use handler_chain::RecordedLine;
use pam_base::{CallName, Code, Func, NoMemory};
use pass_replay::{Held, Retold, first_visit, retell};
use report_lines::{ReportedAnswer, ReportedOutcome};
use service_load::Trees;
use std::alloc::Global;

/// The result of a block for what is known of its transaction.
#[derive(Debug, Drop)]
pub enum Judged {
    /// It fits, and this is known of the transaction afterwards.
    Fits(SlotLog),
    /// It doesn't fit: this line of the block, counted from 0, is named.
    Differs(usize),
}

/// Judges a block by its lines and its result.
pub fn judge(
    alloc: Global,
    trees: &Trees,
    place: SlotLog,
    told: &[Option<RecordedLine>],
    outcome: ReportedOutcome,
) -> Result<Judged, NoMemory>
    requires { AreBounded trees.now }
    ensures { IfOk result (λ judged. Judges (stacks_in trees.now) (place_of place)
        (told_in told.now) (result_of outcome) judged) }
{
    match place {
        SlotLog::Open(held) => match stack_call(outcome) {
            Some(call) => judge_call(alloc, trees, held, call.func, call.code, told),
            None => Ok(judge_quiet(SlotLog::Open(held), told, outcome)),
        },
        SlotLog::Closed => Ok(judge_quiet(SlotLog::Closed, told, outcome)),
    }
}

// A stack call and its code.
#[derive(Clone, Copy)]
struct StackCall {
    func: Func,
    code: Code,
}

fn stack_call(outcome: ReportedOutcome) -> Option<StackCall>
    ensures { IsCall result (result_of outcome) }
{
    match outcome {
        ReportedOutcome::Answered(CallName::Run(func), ReportedAnswer::Code(code)) => Some(
            StackCall { func, code },
        ),
        _ => None,
    }
}

// Judges a block whose result isn't the code of a stack call: it has no `line` lines.
fn judge_quiet(place: SlotLog, told: &[Option<RecordedLine>], outcome: ReportedOutcome) -> Judged
    ensures { IsJudged result
        (without_visits (visits_told (told_in told.now))
        (after_quiet (place_of place) (result_of outcome)))
        (lines_before 0 (told_in told.now)) }
{
    let first = first_visit(told);
    if first < told.len() {
        return Judged::Differs(first);
    }
    match after_quiet(place, outcome) {
        Some(slot_log) => Judged::Fits(slot_log),
        None => Judged::Differs(first),
    }
}

fn judge_call(
    alloc: Global,
    trees: &Trees,
    held: Held,
    func: Func,
    code: Code,
    told: &[Option<RecordedLine>],
) -> Result<Judged, NoMemory>
    requires { AreBounded trees.now }
    ensures { IfOk result (λ judged. Judges (stacks_in trees.now) (running (held_of held))
        (told_in told.now) (answered (runs func) (shows_code code)) judged) }
{
    if is_refused_change(func, code, told) {
        return Ok(Judged::Fits(SlotLog::Open(held)));
    }
    if held.is_other_pending(func) {
        return Ok(Judged::Differs(first_visit(told)));
    }
    let retold = retell(alloc, trees, func, held, told)?;
    if is_retold(code, &retold, told.len()) {
        Ok(Judged::Fits(SlotLog::Open(retold.held)))
    } else {
        Ok(Judged::Differs(retold.next))
    }
}

/// Whether it is a chauthtok whose flags were refused: then no line is run, and nothing changes.
pub fn is_refused_change(func: Func, code: Code, told: &[Option<RecordedLine>]) -> bool
    ensures { result ≡ is_refused_change func code (visits_told (told_in told.now)) }
{
    if first_visit(told) < told.len() {
        return false;
    }
    is_change_fault(func, code)
}

fn is_change_fault(func: Func, code: Code) -> bool
    ensures { result ≡ is_refused_change func code [] }
{
    func == Func::ChAuthTok && code == Code::SystemErr
}

// Whether a call took all of n recorded lines, ran no other line, and returned this code.
fn is_retold(code: Code, retold: &Retold, n: usize) -> bool
    ensures { result ≡ (not retold.now.astray
        && (nat_eq retold.now.next n && same_code code retold.now.code)) }
{
    !retold.astray && retold.next == n && code == retold.code
}
