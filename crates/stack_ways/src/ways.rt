ghost use Rattle.std.specs.Prelude.{◌≡◌, ◌+◌, ◌≤◌, [], ◌∷◌, All, AllPairs, IfOk, OnOk};
ghost use Rattle.control_words.specs.Stack.{lines_in, node_on, none, stack_of};
ghost use Rattle.handler_chain.specs.Opinion.{opening};
ghost use Rattle.stack_ways.specs.LineCodes.{counts_in, possible_in};
ghost use Rattle.stack_ways.specs.Ways.{Apart, Each, Gained, WaysOf};
ghost use Rattle.stack_ways.specs.Steps.{AfterSub, StackStep, SubStep};

use crate::add_way::{WaysFault, add_way};
use crate::line::{LineAt, pass_line_by_all, skip_node};
use crate::line_codes::LineCodes;
use crate::line_count::lines_of;
use crate::way::{Way, Ways, joined};
use control_words::{Node, Nodes};
use handler_chain::Opinion;
use pam_base::{NoMemory, Sequence};
use std::alloc::Global;

/// The states in which a stack may end, each with the lines that counted on the way there, if its
/// lines return only the codes that are assumed. Of all that may happen, some way that is listed
/// ends in the same state, and all its lines counted; each that is listed may happen.
///
/// `work` is how many steps of comparing ways are allowed; TooMany if more may be needed.
pub fn possible_ways(
    alloc: Global,
    nodes: &Nodes,
    assumed: &[LineCodes],
    work: usize,
) -> Result<Ways, WaysFault>
    requires few { lines_in (stack_of nodes.now.vec.items) ≤ 4096 }
    ensures ways { IfOk result (λ ways. WaysOf (possible_in assumed.now) (counts_in assumed.now)
        (stack_of nodes.now.vec.items) 1 opening ways) }
    ensures ended { IfOk result (λ ways. All (λ way. way.skip ≡ 0) ways) }
    ensures apart { IfOk result (λ ways. AllPairs Apart ways) }
{
    let mut work = work;
    let all = pass_list(alloc, nodes, 1, Opinion::opening(), assumed, &mut work)?;
    let ways = ended(alloc, all.items(), &mut work)?;
    Ok(ways)
}

// The ways at the end of a whole stack, without those that others cover.
fn ended(alloc: Global, all: &[Way], work: &mut usize) -> Result<Ways, WaysFault>
    ensures gained { IfOk result (λ ways. Gained (Each (AfterSub
        (record { opinion = opening; skip = 0; marks = [] })) all.now) [] ways) }
    ensures apart { IfOk result (λ ways. AllPairs Apart ways) }
{
    let first = first_way(alloc, Opinion::opening());
    let mut ways = Sequence::new(alloc);
    leave_sub(alloc, all, &first, &mut ways, work)?;
    Ok(ways)
}

// Adds the ways after a substack, of a way that is before it, by those of the substack.
fn leave_sub(
    alloc: Global,
    ends: &[Way],
    way: &Way,
    next: &mut Ways,
    work: &mut usize,
) -> Result<(), WaysFault>
    ensures gained { OnOk result (Gained (Each (AfterSub way.now) ends.now) next.old next.new) }
    ensures apart { OnOk result (AllPairs Apart next.old → AllPairs Apart next.new) }
{
    for end in ends {
        let marks = joined(alloc, way.marks.items(), end.marks.items())?;
        let new = Way {
            opinion: end.opinion,
            skip: 0,
            marks,
        };
        add_way(alloc, next, new, work)?;
    }
    Ok(())
}

fn first_way(alloc: Global, entry: Opinion) -> Way
    ensures { result ≡ record { opinion = entry; skip = 0; marks = [] } }
{
    Way {
        opinion: entry,
        skip: 0,
        marks: Sequence::new(alloc),
    }
}

fn first_ways(alloc: Global, entry: Opinion) -> Result<Ways, NoMemory>
    ensures { IfOk result (λ ways. ways ≡ record { opinion = entry; skip = 0; marks = [] } ∷ []) }
{
    let mut ways = Sequence::new(alloc);
    ways.push(first_way(alloc, entry))?;
    Ok(ways)
}

// Adds the ways after a substack whose first line has this rule number, of a way that is before it.
#[cycle(pass)]
fn pass_sub(
    alloc: Global,
    inner: &Nodes,
    place: usize,
    assumed: &[LineCodes],
    way: &Way,
    next: &mut Ways,
    work: &mut usize,
) -> Result<(), WaysFault>
    requires few { place + lines_in (stack_of inner.now.vec.items) ≤ 4097 }
    ensures { OnOk result (Gained (SubStep (possible_in assumed.now) (counts_in assumed.now)
        (stack_of inner.now.vec.items) place way.now) next.old next.new) }
{
    if way.skip > 0 {
        skip_node(alloc, way, next, work)?;
    } else {
        let ends = pass_list(alloc, inner, place, way.opinion, assumed, work)?;
        leave_sub(alloc, ends.items(), way, next, work)?;
    }
    Ok(())
}

#[cycle(pass)]
fn pass_sub_by_all(
    alloc: Global,
    inner: &Nodes,
    place: usize,
    assumed: &[LineCodes],
    ways: &[Way],
    work: &mut usize,
) -> Result<Ways, WaysFault>
    requires few { place + lines_in (stack_of inner.now.vec.items) ≤ 4097 }
    ensures { IfOk result (λ next. Gained (Each (SubStep (possible_in assumed.now)
        (counts_in assumed.now) (stack_of inner.now.vec.items) place) ways.now) [] next) }
{
    let mut next = Sequence::new(alloc);
    for way in ways {
        pass_sub(alloc, inner, place, assumed, way, &mut next, work)?;
    }
    Ok(next)
}

// The ways after a node, of all ways that are before it.
#[cycle(pass)]
fn pass_node(
    alloc: Global,
    node: &Node,
    place: usize,
    left: usize,
    entry: Opinion,
    assumed: &[LineCodes],
    ways: &[Way],
    work: &mut usize,
) -> Result<Ways, WaysFault>
    requires few { place + lines_in (node_on node.now none) ≤ 4097 }
    ensures { IfOk result (λ next. Gained (Each (StackStep (possible_in assumed.now)
        (counts_in assumed.now) (node_on node.now none) place left entry) ways.now) [] next) }
{
    match node {
        Node::Line(rule) => {
            let at = LineAt {
                rule,
                place,
                left,
                entry,
            };
            let next = pass_line_by_all(alloc, &at, assumed, ways, work)?;
            Ok(next)
        }
        Node::Sub(inner) => {
            let next = pass_sub_by_all(alloc, inner, place, assumed, ways, work)?;
            Ok(next)
        }
    }
}

// The ways in which a list may end that is entered in a state, if its first line has this rule
// number.
#[cycle(pass)]
fn pass_list(
    alloc: Global,
    nodes: &Nodes,
    first: usize,
    entry: Opinion,
    assumed: &[LineCodes],
    work: &mut usize,
) -> Result<Ways, WaysFault>
    requires few { first + lines_in (stack_of nodes.now.vec.items) ≤ 4097 }
    ensures { IfOk result (λ ways. WaysOf (possible_in assumed.now) (counts_in assumed.now)
        (stack_of nodes.now.vec.items) first entry ways) }
{
    let mut ways = first_ways(alloc, entry)?;
    let mut place = first;
    let mut left = nodes.len();
    for node in &nodes.vec {
        left -= 1;
        ways = pass_node(alloc, node, place, left, entry, assumed, ways.items(), work)?;
        place += lines_of(node);
    }
    Ok(ways)
}
