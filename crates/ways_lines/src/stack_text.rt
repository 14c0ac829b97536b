ghost use Rattle.std.specs.Prelude.{◌≡◌, ◌≤◌, ◌++◌, IfOk, OnOk, string_bytes};
ghost use Rattle.control_words.specs.Stack.{lines_in, stack_of};
ghost use Rattle.ways_lines.specs.Told.{IsTold, ShowsStack, assumed_by, assumed_of, stack_head};
ghost use Rattle.ways_lines.specs.Told.{stack_text, told_text};

use crate::row::{Row, rows_of};
use crate::rule_text::write_rows;
use crate::way_text::{write_verdict, write_ways};
use control_words::{Nodes, Rule, module_name};
use explain_lines::Origins;
use module_table::stack_ways::{LineCodes, Ways, WaysFault, possible_ways};
use module_table::{Entry, codes_of, entry_for};
use pam_base::{NoMemory, Sequence, Word};
use service_load::RuleType;
use std::alloc::Global;

/// How many steps of comparing ways are made for a stack before it has too many.
const WORK: usize = 100_000_000;

/// Adds the lines of a stack: its rules, which are written at these origins, and its ways, if its
/// modules return what the table says.
#[tactic(auto, unfolding(crate::specs::Told::stack_text))]
pub fn write_stack(
    alloc: Global,
    text: &mut String,
    rule_type: RuleType,
    nodes: &Nodes,
    origins: &Origins,
    table: &[Entry],
) -> Result<(), NoMemory>
    requires few { lines_in (stack_of nodes.now.vec.items) ≤ 4096 }
    ensures { OnOk result (ShowsStack rule_type origins.now table.now
        (stack_of nodes.now.vec.items) (string_bytes text.old) (string_bytes text.new)) }
{
    let rows = rows_of(alloc, nodes)?;
    let assumed = assumed_of(alloc, table, rule_type, rows.items())?;
    let told = ways_of(alloc, nodes, assumed.items())?;
    write_head(text, rule_type)?;
    write_rows(text, rule_type, origins.items(), table, 1, rows.items())?;
    write_told(text, &told)?;
    Ok(())
}

#[tactic(auto, unfolding(crate::specs::Told::stack_head))]
fn write_head(text: &mut String, rule_type: RuleType) -> Result<(), NoMemory>
    ensures { OnOk result (string_bytes text.new ≡ string_bytes text.old ++ stack_head rule_type) }
{
    text.push_str("stack\t")?;
    text.push_str(rule_type.word())?;
    text.push_str("\n")?;
    Ok(())
}

// The ways of a stack; None if there are too many.
fn ways_of(alloc: Global, nodes: &Nodes, assumed: &[LineCodes]) -> Result<Option<Ways>, NoMemory>
    requires few { lines_in (stack_of nodes.now.vec.items) ≤ 4096 }
    ensures { IfOk result (λ told. IsTold assumed.now (stack_of nodes.now.vec.items) told) }
{
    match possible_ways(alloc, nodes, assumed, WORK) {
        Ok(ways) => Ok(Some(ways)),
        Err(WaysFault::TooMany) => Ok(None),
        Err(WaysFault::NoMemory) => Err(NoMemory),
    }
}

fn assumed_of(
    alloc: Global,
    table: &[Entry],
    rule_type: RuleType,
    rows: &[Row],
) -> Result<Sequence<LineCodes>, NoMemory>
    ensures { IfOk result (λ assumed. assumed ≡ assumed_of table.now rule_type rows.now) }
{
    let mut assumed = Sequence::new(alloc);
    for row in rows {
        if let Row::Rule(rule) = row {
            assumed.push(assumed_by(table, rule_type, rule))?;
        }
    }
    Ok(assumed)
}

fn assumed_by(table: &[Entry], rule_type: RuleType, rule: &Rule) -> LineCodes
    ensures { result ≡ assumed_by table.now rule_type rule.now }
{
    let name = module_name(rule.path.bytes());
    codes_of(entry_for(table, name, rule_type.word().as_bytes()))
}

fn write_told(text: &mut String, told: &Option<Ways>) -> Result<(), NoMemory>
    ensures { OnOk result (string_bytes text.new ≡ string_bytes text.old ++ told_text told.now) }
{
    match told {
        Some(ways) => write_ways(text, ways.items()),
        None => write_verdict(text, "unknown"),
    }
}
