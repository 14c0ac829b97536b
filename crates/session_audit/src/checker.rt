ghost use Rattle.std.specs.Prelude.{◌≡◌, ◌≤◌, ◌<◌, ◌+◌, ◌-◌, ◌^◌, ℕ, Bool, nat_eq, IfOk, List, Option, Some, None, length};
ghost use Rattle.std.specs.Option.{option_map};
ghost use Rattle.service_load.specs.Stacks.{Stacks};
ghost use Rattle.service_load.specs.Load.{AreBounded};
ghost use Rattle.pass_replay.specs.Retold.{stacks_in};
ghost use Rattle.report_lines.specs.Line.{unread};
ghost use Rattle.report_lines.specs.Guess.{read_line};
ghost use Rattle.report_lines.specs.Form.{result_of, says_of, told_of};
ghost use Rattle.report_lines.specs.Says.{Says, bare, lasts, results, tells};
ghost use Rattle.session_audit.specs.Checked.{IsAfter, IsTaken, begun_within, differs_at, gathered_of, line_of, told_in};
ghost use Rattle.session_audit.specs.Differs.{differs, may_follow, told_so_far};
ghost use Rattle.session_audit.specs.Fits.{is_none};
ghost use Rattle.session_audit.specs.Whole.{formless};

use crate::place::SlotLog;
use crate::places::{closed_places, judge_at};
use crate::verdict::Verdict;
use handler_chain::RecordedLine;
use pam_base::NoMemory;
use report_lines::{Form, ReportedOutcome, read_line};
use service_load::Trees;
use std::alloc::Global;

/// A block that has begun: the transaction number of its lines, and what they have said so far.
#[derive(Drop)]
pub struct Begun {
    pub number: u32,
    pub told: Vec<Option<RecordedLine>>,
}

/// A checker after n lines of a report: what is known of each transaction, the block that has
/// begun, and n.
#[derive(Drop)]
pub struct Checker {
    pub places: Vec<SlotLog>,
    pub begun: Option<Begun>,
    pub lines: u32,
}

impl Checker {
    /// A checker before the first line.
    pub fn new(alloc: Global) -> Result<Self, NoMemory>
        ensures is_after { IfOk result (λ c. IsAfter c 0) }
        ensures differs { IfOk result (λ c. (stacks : Stacks) (lines : List (Option Says)) →
            differs_at stacks c lines ≡ differs stacks lines) }
    {
        Ok(Checker {
            places: closed_places(alloc)?,
            begun: None,
            lines: 0,
        })
    }

    /// Takes the next line, given without its newline. Returns the number of the line that differs,
    /// if one does.
    pub fn take_line(
        &mut self,
        alloc: Global,
        trees: &Trees,
        line: &[u8],
        is_last: bool,
    ) -> Result<Option<u32>, NoMemory>
        requires bounded { AreBounded trees.now }
        requires is_after { IsAfter self.old self.old.lines }
        requires room { self.old.lines < 2 ^ 32 - 1 }
        ensures { IfOk result (λ named. IsTaken (stacks_in trees.now) self.old
            (option_map bare (read_line line.now)) is_last named self.new) }
    {
        let form = read_line(alloc, line)?;
        self.take(alloc, trees, form, is_last)
    }

    // Takes a line, given as what it says; None is a line that has none of the forms.
    fn take(
        &mut self,
        alloc: Global,
        trees: &Trees,
        form: Option<Form>,
        is_last: bool,
    ) -> Result<Option<u32>, NoMemory>
        requires bounded { AreBounded trees.now }
        requires is_after { IsAfter self.old self.old.lines }
        requires room { self.old.lines < 2 ^ 32 - 1 }
        ensures { IfOk result (λ named. IsTaken (stacks_in trees.now) self.old
            (option_map says_of form) is_last named self.new) }
    {
        match form {
            None => Ok(Some(self.lines + 1)),
            Some(Form::Last) => Ok(self.take_last(is_last)),
            Some(Form::Told { number, visit }) => self.take_told(alloc, number, visit),
            Some(Form::Result { number, outcome }) => {
                self.take_result(alloc, trees, number, outcome)
            }
        }
    }

    // A last line comes last, and not inside a block.
    fn take_last(&mut self, is_last: bool) -> Option<u32>
        requires is_after { IsAfter self.old self.old.lines }
        requires room { self.old.lines < 2 ^ 32 - 1 }
        ensures { (stacks : Stacks) →
            IsTaken stacks self.old (Some (lasts unread)) is_last result self.new }
    {
        if is_last && self.begun.is_none() {
            self.lines += 1;
            None
        } else {
            Some(self.lines + 1)
        }
    }

    fn take_told(
        &mut self,
        alloc: Global,
        number: u32,
        visit: Option<RecordedLine>,
    ) -> Result<Option<u32>, NoMemory>
        requires is_after { IsAfter self.old self.old.lines }
        requires room { self.old.lines < 2 ^ 32 - 1 }
        ensures { IfOk result (λ named. (stacks : Stacks) (is_last : Bool) →
            IsTaken stacks self.old (Some (tells number (told_of visit))) is_last named self.new) }
    {
        let mut begun = begun_at(alloc, self.begun.take(), number);
        if begun.number != number {
            return Ok(Some(self.lines + 1));
        }
        begun.told.push(visit)?;
        self.begun = Some(begun);
        self.lines += 1;
        Ok(None)
    }

    fn take_result(
        &mut self,
        alloc: Global,
        trees: &Trees,
        number: u32,
        outcome: ReportedOutcome,
    ) -> Result<Option<u32>, NoMemory>
        requires bounded { AreBounded trees.now }
        requires is_after { IsAfter self.old self.old.lines }
        requires room { self.old.lines < 2 ^ 32 - 1 }
        ensures { IfOk result (λ named. (is_last : Bool) →
            IsTaken (stacks_in trees.now) self.old (Some (results number (result_of outcome)))
            is_last named self.new) }
    {
        let begun = begun_at(alloc, self.begun.take(), number);
        if begun.number != number {
            return Ok(Some(self.lines + 1));
        }
        let judged = judge_at(alloc, trees, &mut self.places, number, &begun.told, outcome)?;
        match judged {
            Some(line) => Ok(Some(self.lines + 1 - begun.told.len() as u32 + line as u32)),
            None => {
                self.lines += 1;
                Ok(None)
            }
        }
    }

    /// The verdict at the end of a text, which has no bytes after its last newline, or has some.
    pub fn end(&self, is_empty: bool) -> Verdict
        requires room { self.now.lines < 2 ^ 32 - 1 }
        ensures { (stacks : Stacks) (rest : List ℕ) → is_none rest ≡ is_empty →
            line_of result ≡ differs_at stacks self.now (formless rest) }
    {
        if is_empty && self.begun.is_none() {
            Verdict::Fits
        } else {
            Verdict::Differs {
                line: self.lines + 1,
            }
        }
    }
}

// The block that has begun; if none has, one of this number.
fn begun_at(alloc: Global, begun: Option<Begun>, number: u32) -> Begun
    ensures follows { nat_eq result.number number ≡ may_follow (gathered_of begun) number }
    ensures told { told_in result.told.items ≡ told_so_far (gathered_of begun) }
    ensures within { (lines : ℕ) → begun_within begun lines → length result.told.items ≤ lines }
{
    match begun {
        Some(begun) => begun,
        None => Begun {
            number,
            told: Vec::new(alloc),
        },
    }
}
