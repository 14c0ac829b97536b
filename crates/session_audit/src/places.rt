ghost use Rattle.std.specs.Prelude.{◌≡◌, ◌&&◌, IfOk, map, nat_le, nat_lt};
ghost use Rattle.service_load.specs.Stacks.{Stacks};
ghost use Rattle.service_load.specs.Load.{AreBounded};
ghost use Rattle.pass_replay.specs.Retold.{stacks_in};
ghost use Rattle.report_lines.specs.Line.{block_of};
ghost use Rattle.report_lines.specs.Form.{result_of};
ghost use Rattle.session_audit.specs.Checked.{IsPlaced, IsUnplaced, place_of, told_in};
ghost use Rattle.session_audit.specs.Fits.{all_shut, is_bad_number};

use crate::judge::{Judged, judge};
use crate::place::SlotLog;
use handler_chain::RecordedLine;
use pam_base::NoMemory;
use pass_replay::first_visit;
use report_lines::{ReportedAnswer, ReportedOutcome};
use service_load::Trees;
use std::alloc::Global;

// The maximum number of a transaction; they begin with 1.
const HANDLE_LIMIT: usize = 16;

/// All transactions, closed.
pub fn closed_places(alloc: Global) -> Result<Vec<SlotLog>, NoMemory>
    ensures { IfOk result (λ places. map place_of places.items ≡ all_shut) }
{
    let mut places = Vec::new(alloc);
    while places.len() < HANDLE_LIMIT {
        places.push(SlotLog::Closed)?;
    }
    Ok(places)
}

/// Judges a block for its transaction, and keeps what is known afterwards. Returns the line of the
/// block that differs, counted from 0; None if the block fits.
pub fn judge_at(
    alloc: Global,
    trees: &Trees,
    places: &mut Vec<SlotLog>,
    number: u32,
    told: &[Option<RecordedLine>],
    outcome: ReportedOutcome,
) -> Result<Option<usize>, NoMemory>
    requires bounded { AreBounded trees.now }
    ensures { IfOk result (λ line. IsPlaced (stacks_in trees.now) places.old.items
        (block_of number (told_in told.now) (result_of outcome)) line places.new.items) }
{
    if !has_place(number, places.len()) {
        return Ok(judge_nowhere(told, outcome));
    }
    let i = number as usize - 1;
    let place = std::mem::replace(&mut places[i], SlotLog::Closed);
    match judge(alloc, trees, place, told, outcome)? {
        Judged::Fits(slot_log) => {
            places[i] = slot_log;
            Ok(None)
        }
        Judged::Differs(line) => Ok(Some(line)),
    }
}

// Whether a number is that of one of n transactions.
fn has_place(number: u32, n: usize) -> bool
    ensures { result ≡ (nat_lt 0 number && nat_le number n) }
{
    0 < number && number as usize <= n
}

// Judges a block of a number that no transaction has.
fn judge_nowhere(told: &[Option<RecordedLine>], outcome: ReportedOutcome) -> Option<usize>
    ensures { IsUnplaced result (told_in told.now) (result_of outcome) }
{
    let first = first_visit(told);
    if first < told.len() {
        return Some(first);
    }
    if is_bad_number(outcome) {
        None
    } else {
        Some(first)
    }
}

fn is_bad_number(outcome: ReportedOutcome) -> bool
    ensures { (stacks : Stacks) → result ≡ is_bad_number stacks (result_of outcome) }
{
    matches!(
        outcome,
        ReportedOutcome::Answered(_, ReportedAnswer::BadNumber)
    )
}
