ghost use Rattle.std.specs.Prelude.{◌≡◌, ◌++◌, Some, IfOk, OnOk, map, string_bytes};
ghost use Rattle.std.specs.Option.{option_map};
ghost use Rattle.service_load.specs.Load.{AreBounded};
ghost use Rattle.pass_replay.specs.Held.{held_of};
ghost use Rattle.pass_replay.specs.Retold.{stacks_in};
ghost use Rattle.report_lines.specs.Form.{result_of};
ghost use Rattle.report_lines.specs.Guess.{read_line};
ghost use Rattle.report_lines.specs.Says.{bare, results};
ghost use Rattle.session_audit.specs.Checked.{place_of, told_in};
ghost use Rattle.session_audit.specs.Fits.{place_at, visits_told};
ghost use Rattle.explain_report.specs.Report.{Takes, block_text, called_text};

use explain_calls::{write_call, write_refused};
use explain_lines::Sources;
use handler_chain::RecordedLine;
use pam_base::{CallName, Code, Func, NoMemory};
use pass_replay::held::Held;
use report_lines::{Form, ReportedAnswer, ReportedOutcome, read_line};
use service_load::Trees;
use session_audit::{SlotLog, is_refused_change, judge_at};
use std::alloc::Global;

/// How far a report is explained: what is known of each transaction, the lines of the block that has
/// begun, and the text.
#[derive(Drop)]
pub struct Explainer {
    pub places: Vec<SlotLog>,
    pub told: Vec<Option<RecordedLine>>,
    pub text: String,
}

impl Explainer {
    /// Takes the next line, given without its newline, and adds the text of the stack call that
    /// ends with it. False if no line after it is read: it has no form, is a last one, or doesn't
    /// fit.
    pub fn take_line(
        &mut self,
        alloc: Global,
        trees: &Trees,
        sources: &Sources,
        line: &[u8],
    ) -> Result<bool, NoMemory>
        requires bounded { AreBounded trees.now }
        ensures { IfOk result (λ goes_on. Takes (stacks_in trees.now) sources.now self.old
            (option_map bare (read_line line.now)) goes_on self.new) }
    {
        match read_line(alloc, line)? {
            Some(Form::Told { visit, .. }) => {
                self.told.push(visit)?;
                Ok(true)
            }
            Some(Form::Result { number, outcome }) => {
                self.take_result(alloc, trees, sources, number, outcome)
            }
            Some(Form::Last) | None => Ok(false),
        }
    }

    fn take_result(
        &mut self,
        alloc: Global,
        trees: &Trees,
        sources: &Sources,
        number: u32,
        outcome: ReportedOutcome,
    ) -> Result<bool, NoMemory>
        requires bounded { AreBounded trees.now }
        ensures { IfOk result (λ goes_on. Takes (stacks_in trees.now) sources.now self.old
            (Some (results number (result_of outcome))) goes_on self.new) }
    {
        let told = std::mem::replace(&mut self.told, Vec::new(alloc));
        let block = Block {
            trees,
            sources,
            number,
            told: &told,
            outcome,
        };
        write_block(alloc, &block, self.places.as_slice(), &mut self.text)?;
        match judge_at(alloc, trees, &mut self.places, number, &told, outcome)? {
            None => Ok(true),
            Some(_) => Ok(false),
        }
    }
}

/// A block of a report: the number of its transaction, the lines that were run, and the result;
/// with the stacks, and where their rules are written.
#[derive(Clone, Copy)]
pub struct Block<'a> {
    pub trees: &'a Trees,
    pub sources: &'a Sources,
    pub number: u32,
    pub told: &'a [Option<RecordedLine>],
    pub outcome: ReportedOutcome,
}

// Adds the text of a block.
fn write_block(
    alloc: Global,
    block: &Block,
    places: &[SlotLog],
    text: &mut String,
) -> Result<(), NoMemory>
    requires bounded { AreBounded block.now.trees.now }
    ensures { OnOk result (string_bytes text.new ≡ string_bytes text.old
        ++ block_text (stacks_in block.now.trees.now) block.now.sources.now block.now.number
        (place_at (map place_of places.now) block.now.number)
        (visits_told (told_in block.now.told.now)) (result_of block.now.outcome)) }
{
    let number = block.number;
    if number == 0 || number as usize > places.len() {
        return Ok(());
    }
    let place = &places[number as usize - 1];
    write_at(alloc, block, place, text)
}

// Adds the text of a block of a transaction of which this is known.
fn write_at(
    alloc: Global,
    block: &Block,
    place: &SlotLog,
    text: &mut String,
) -> Result<(), NoMemory>
    requires bounded { AreBounded block.now.trees.now }
    ensures { OnOk result (string_bytes text.new ≡ string_bytes text.old
        ++ block_text (stacks_in block.now.trees.now) block.now.sources.now block.now.number
        (Some (place_of place.now)) (visits_told (told_in block.now.told.now))
        (result_of block.now.outcome)) }
{
    match place {
        SlotLog::Open(held) => match block.outcome {
            ReportedOutcome::Answered(CallName::Run(func), ReportedAnswer::Code(code)) => {
                write_called(alloc, block, held, func, code, text)
            }
            _ => Ok(()),
        },
        SlotLog::Closed => Ok(()),
    }
}

// Adds the text of a stack call with its code.
fn write_called(
    alloc: Global,
    block: &Block,
    held: &Held,
    func: Func,
    code: Code,
    text: &mut String,
) -> Result<(), NoMemory>
    requires bounded { AreBounded block.now.trees.now }
    ensures { OnOk result (string_bytes text.new ≡ string_bytes text.old
        ++ called_text (stacks_in block.now.trees.now) block.now.sources.now block.now.number func
        code (held_of held.now) (visits_told (told_in block.now.told.now))) }
{
    let (number, told) = (block.number, block.told);
    if is_refused_change(func, code, told) {
        write_refused(text, number)
    } else {
        write_call(
            alloc,
            block.trees,
            block.sources,
            text,
            number,
            func,
            held,
            told,
        )
    }
}
