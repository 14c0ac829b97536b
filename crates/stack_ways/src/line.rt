ghost use Rattle.std.specs.Prelude.{◌≡◌, ◌++◌, [], ◌∷◌, ◌<◌, if◌then◌else◌, IfOk, OnOk};
ghost use Rattle.stack_ways.specs.LineCodes.{counts_in, possible_in};
ghost use Rattle.stack_ways.specs.MayEnd.{mark_of};
ghost use Rattle.stack_ways.specs.Ways.{Each, Gained};
ghost use Rattle.stack_ways.specs.Steps.{ByCode, LineStep, Skips, plain_line, way_by};

use crate::add_way::{WaysFault, add_way};
use crate::line_codes::{LineCodes, line_counts, may_return};
use crate::next_node::next_node_after;
use crate::way::{Way, Ways, joined};
use control_words::Rule;
use handler_chain::{Opinion, PassKind};
use pam_base::{ALL_CODES, Code, NoMemory, Sequence};
use std::alloc::Global;

/// A line in a list: its rule and rule number, how many nodes of the list are left after it, and the
/// state in which the list was entered.
#[derive(Clone, Copy)]
pub struct LineAt<'a> {
    pub rule: &'a Rule,
    pub place: usize,
    pub left: usize,
    pub entry: Opinion,
}

/// Adds a way that skips the present node.
pub fn skip_node(
    alloc: Global,
    way: &Way,
    next: &mut Ways,
    work: &mut usize,
) -> Result<(), WaysFault>
    requires { 0 < way.now.skip }
    ensures { OnOk result (Gained (Skips way.now) next.old next.new) }
{
    let marks = joined(alloc, way.marks.items(), &[])?;
    let skipped = Way {
        opinion: way.opinion,
        skip: way.skip - 1,
        marks,
    };
    add_way(alloc, next, skipped, work)?;
    Ok(())
}

// The way after a line returned a code.
fn way_after(
    alloc: Global,
    at: &LineAt,
    assumed: &[LineCodes],
    way: &Way,
    code: Code,
) -> Result<Way, NoMemory>
    ensures { IfOk result (λ new. new ≡ way_by (counts_in assumed.now)
        (plain_line at.now) way.now code) }
{
    let action = at.rule.control.action(code);
    let new = way
        .opinion
        .after(PassKind::Keep, action, code, code, at.entry);
    let onward = next_node_after(action, at.left, new);
    let marks = marks_after(
        alloc,
        way.marks.items(),
        at.place,
        line_counts(assumed, at.place, code),
    )?;
    Ok(Way {
        opinion: onward.opinion,
        skip: onward.skip,
        marks,
    })
}

fn marks_after(
    alloc: Global,
    marks: &[usize],
    place: usize,
    counts: bool,
) -> Result<Sequence<usize>, NoMemory>
    ensures { IfOk result (λ all. all ≡ marks.now ++ (if counts then place ∷ [] else [])) }
{
    if counts {
        joined(alloc, marks, &[place])
    } else {
        joined(alloc, marks, &[])
    }
}

// Adds the way after one code, where it is possible.
fn return_one(
    alloc: Global,
    at: &LineAt,
    assumed: &[LineCodes],
    way: &Way,
    code: Code,
    next: &mut Ways,
    work: &mut usize,
) -> Result<(), WaysFault>
    ensures { OnOk result (Gained (ByCode (possible_in assumed.now) (counts_in assumed.now)
        (plain_line at.now) way.now code)
        next.old next.new) }
{
    if !may_return(assumed, at.place, code) {
        return Ok(());
    }
    let new = way_after(alloc, at, assumed, way, code)?;
    add_way(alloc, next, new, work)?;
    Ok(())
}

fn return_each(
    alloc: Global,
    at: &LineAt,
    assumed: &[LineCodes],
    way: &Way,
    codes: &[Code],
    next: &mut Ways,
    work: &mut usize,
) -> Result<(), WaysFault>
    ensures { OnOk result (Gained (Each (ByCode (possible_in assumed.now) (counts_in assumed.now)
        (plain_line at.now) way.now) codes.now)
        next.old next.new) }
{
    for code in codes {
        return_one(alloc, at, assumed, way, *code, next, work)?;
    }
    Ok(())
}

// Adds the ways after a line, of a way that is before it.
fn pass_line(
    alloc: Global,
    at: &LineAt,
    assumed: &[LineCodes],
    way: &Way,
    next: &mut Ways,
    work: &mut usize,
) -> Result<(), WaysFault>
    ensures { OnOk result (Gained (LineStep (possible_in assumed.now) (counts_in assumed.now)
        (plain_line at.now) way.now)
        next.old next.new) }
{
    if way.skip > 0 {
        skip_node(alloc, way, next, work)?;
    } else {
        return_each(alloc, at, assumed, way, &ALL_CODES, next, work)?;
    }
    Ok(())
}

/// The ways after a line, of all ways that are before it.
pub fn pass_line_by_all(
    alloc: Global,
    at: &LineAt,
    assumed: &[LineCodes],
    ways: &[Way],
    work: &mut usize,
) -> Result<Ways, WaysFault>
    ensures { IfOk result (λ next. Gained (Each (LineStep (possible_in assumed.now)
        (counts_in assumed.now) (plain_line at.now))
        ways.now) [] next) }
{
    let mut next = Sequence::new(alloc);
    for way in ways {
        pass_line(alloc, at, assumed, way, &mut next, work)?;
    }
    Ok(next)
}
