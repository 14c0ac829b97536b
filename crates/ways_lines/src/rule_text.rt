ghost use Rattle.std.specs.Prelude.{◌≡◌, ◌++◌, OnOk, string_bytes};
ghost use Rattle.explain_lines.specs.Text.{origin_at};
ghost use Rattle.ways_lines.specs.Rules.{action_fields, control_field, dash, next_place};
ghost use Rattle.ways_lines.specs.Rules.{origin_fields, place_fields, rows_text, rule_head};
ghost use Rattle.ways_lines.specs.Rules.{rule_text, type_field};

use crate::control_text::write_control;
use crate::fields::{write_field, write_number};
use crate::module_text::{write_module, write_path};
use crate::row::Row;
use control_words::{Control, Rule, module_name};
use explain_lines::Origin;
use module_table::Entry;
use pam_base::{NoMemory, Word};
use service_load::RuleType;

/// Adds the lines of rows, the first of whose rules has this number.
pub fn write_rows(
    text: &mut String,
    rule_type: RuleType,
    origins: &[Origin],
    table: &[Entry],
    place: usize,
    rows: &[Row],
) -> Result<(), NoMemory>
    ensures { OnOk result (string_bytes text.new ≡ string_bytes text.old
        ++ rows_text rule_type origins.now table.now place rows.now) }
{
    match rows {
        [] => Ok(()),
        [Row::Rule(rule), rest @ ..] => {
            write_rule(text, rule_type, origins, table, place, rule)?;
            write_rows(text, rule_type, origins, table, next_place(place), rest)
        }
        [Row::Begin, rest @ ..] => {
            text.push_str("substack\n")?;
            write_rows(text, rule_type, origins, table, place, rest)
        }
        [Row::End, rest @ ..] => {
            text.push_str("end\n")?;
            write_rows(text, rule_type, origins, table, place, rest)
        }
    }
}

fn next_place(place: usize) -> usize
    ensures { result ≡ next_place place }
{
    place.saturating_add(1)
}

#[tactic(auto, unfolding(crate::specs::Rules::rule_text))]
fn write_rule(
    text: &mut String,
    rule_type: RuleType,
    origins: &[Origin],
    table: &[Entry],
    place: usize,
    rule: &Rule,
) -> Result<(), NoMemory>
    ensures { OnOk result (string_bytes text.new ≡ string_bytes text.old
        ++ rule_text rule_type origins.now table.now place rule.now) }
{
    write_head(text, origins, place)?;
    write_action(text, rule_type, rule)?;
    write_module(text, rule_type, table, module_name(rule.path.bytes()))?;
    write_path(text, rule)
}

#[tactic(auto, unfolding(crate::specs::Rules::rule_head))]
fn write_head(text: &mut String, origins: &[Origin], place: usize) -> Result<(), NoMemory>
    ensures { OnOk result (string_bytes text.new ≡ string_bytes text.old
        ++ rule_head origins.now place) }
{
    text.push_str("rule")?;
    write_number(text, place)?;
    write_origin(text, origins, place)
}

fn write_origin(text: &mut String, origins: &[Origin], place: usize) -> Result<(), NoMemory>
    ensures { OnOk result (string_bytes text.new ≡ string_bytes text.old
        ++ origin_fields (origin_at origins.now place)) }
{
    if place > 0 {
        if let Some(origin) = origins.get(place - 1) {
            return write_place(text, origin);
        }
    }
    text.push_str("\t?\t0")?;
    Ok(())
}

#[tactic(auto, unfolding(crate::specs::Rules::place_fields))]
fn write_place(text: &mut String, origin: &Origin) -> Result<(), NoMemory>
    ensures { OnOk result (string_bytes text.new ≡ string_bytes text.old
        ++ place_fields origin.now) }
{
    write_field(text, origin.file.bytes())?;
    let line = origin.line;
    write!(text, "\t{line}")?;
    Ok(())
}

#[tactic(auto, unfolding(crate::specs::Rules::action_fields))]
fn write_action(text: &mut String, rule_type: RuleType, rule: &Rule) -> Result<(), NoMemory>
    ensures { OnOk result (string_bytes text.new ≡ string_bytes text.old
        ++ action_fields rule_type rule.now) }
{
    write_type(text, rule_type, rule.silent)?;
    write_control_field(text, &rule.control)
}

#[tactic(auto, unfolding(crate::specs::Rules::type_field))]
fn write_type(text: &mut String, rule_type: RuleType, silent: bool) -> Result<(), NoMemory>
    ensures { OnOk result (string_bytes text.new ≡ string_bytes text.old
        ++ type_field rule_type silent) }
{
    text.push_str("\t")?;
    text.push_str(dash(silent))?;
    text.push_str(rule_type.word())?;
    Ok(())
}

fn dash(silent: bool) -> &'static str
    ensures { result.now ≡ dash silent }
{
    if silent { "-" } else { "" }
}

#[tactic(auto, unfolding(crate::specs::Rules::control_field))]
fn write_control_field(text: &mut String, control: &Control) -> Result<(), NoMemory>
    ensures { OnOk result (string_bytes text.new ≡ string_bytes text.old
        ++ control_field control.now) }
{
    text.push_str("\t")?;
    write_control(text, control)
}
