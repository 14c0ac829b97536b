ghost use Rattle.std.specs.Prelude.{◌≡◌, ◌++◌, OnOk, option_map, string_bytes};
ghost use Rattle.std.specs.List.{flat_map};
ghost use Rattle.ways_lines.specs.Fields.{field};
ghost use Rattle.ways_lines.specs.Rules.{entry_fields, known_fields, module_fields, path_fields};

use crate::fields::write_field;
use control_words::Rule;
use module_table::{Entry, entry_for};
use pam_base::{NoMemory, Text, Word};
use service_load::RuleType;

/// Adds the fields of a module: its name, and what the table says of it in stacks of this type.
#[tactic(auto, unfolding(crate::specs::Rules::module_fields))]
pub fn write_module(
    text: &mut String,
    rule_type: RuleType,
    table: &[Entry],
    name: &[u8],
) -> Result<(), NoMemory>
    ensures { OnOk result (string_bytes text.new ≡ string_bytes text.old
        ++ module_fields rule_type table.now name.now) }
{
    write_field(text, name)?;
    write_entry(text, entry_for(table, name, rule_type.word().as_bytes()))
}

fn write_entry(text: &mut String, found: Option<&Entry>) -> Result<(), NoMemory>
    ensures { OnOk result (string_bytes text.new ≡ string_bytes text.old
        ++ entry_fields (option_map (λ e. e.now) found.entry)) }
{
    match found {
        Some(entry) => write_known(text, entry),
        None => {
            text.push_str("\tasks\tany\tunknown")?;
            Ok(())
        }
    }
}

#[tactic(auto, unfolding(crate::specs::Rules::known_fields))]
fn write_known(text: &mut String, entry: &Entry) -> Result<(), NoMemory>
    ensures { OnOk result (string_bytes text.new ≡ string_bytes text.old
        ++ known_fields entry.now) }
{
    text.push_str("\t")?;
    text.push_str(entry.judging.word())?;
    write_field(text, entry.codes.bytes())?;
    write_field(text, entry.basis.bytes())
}

/// Adds the fields of a module's path and of its arguments, and ends the line.
#[tactic(auto, unfolding(crate::specs::Rules::path_fields))]
pub fn write_path(text: &mut String, rule: &Rule) -> Result<(), NoMemory>
    ensures { OnOk result (string_bytes text.new ≡ string_bytes text.old
        ++ path_fields rule.now) }
{
    write_field(text, rule.path.bytes())?;
    write_args(text, rule.args.items())?;
    text.push_str("\n")?;
    Ok(())
}

fn write_args(text: &mut String, args: &[Text]) -> Result<(), NoMemory>
    ensures { OnOk result (string_bytes text.new ≡ string_bytes text.old
        ++ flat_map field args.now) }
{
    for arg in args {
        write_field(text, arg.bytes())?;
    }
    Ok(())
}
