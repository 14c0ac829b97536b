ghost use Rattle.std.specs.Prelude.{◌≡◌, ◌&&◌, ◌++◌, OnOk, string_bytes};
ghost use Rattle.std.specs.List.{flat_map, list_any};
ghost use Rattle.handler_chain.specs.Opinion.{verdict};
ghost use Rattle.pam_base.specs.Code.{name_of};
ghost use Rattle.ways_lines.specs.Fields.{number_field};
ghost use Rattle.ways_lines.specs.Told.{is_granting, is_success, is_unasked, verdict_text};
ghost use Rattle.ways_lines.specs.Told.{verdict_word, way_text, ways_text};

use crate::fields::write_number;
use module_table::stack_ways::Way;
use pam_base::{Code, NoMemory, code_name};

/// Adds the lines of the ways of a stack, and whether they grant.
#[tactic(auto, unfolding(crate::specs::Told::ways_text))]
pub fn write_ways(text: &mut String, ways: &[Way]) -> Result<(), NoMemory>
    ensures { OnOk result (string_bytes text.new ≡ string_bytes text.old ++ ways_text ways.now) }
{
    write_each(text, ways)?;
    write_verdict(text, verdict_word(ways))
}

/// Adds the last line of a stack.
#[tactic(auto, unfolding(crate::specs::Told::verdict_text))]
pub fn write_verdict(text: &mut String, word: &str) -> Result<(), NoMemory>
    ensures { OnOk result (string_bytes text.new ≡ string_bytes text.old ++ verdict_text word.now) }
{
    text.push_str("verdict\t")?;
    text.push_str(word)?;
    text.push_str("\n")?;
    Ok(())
}

fn write_each(text: &mut String, ways: &[Way]) -> Result<(), NoMemory>
    ensures { OnOk result (string_bytes text.new ≡ string_bytes text.old
        ++ flat_map way_text ways.now) }
{
    for way in ways {
        write_way(text, way)?;
    }
    Ok(())
}

#[tactic(auto, unfolding(crate::specs::Told::way_text))]
fn write_way(text: &mut String, way: &Way) -> Result<(), NoMemory>
    ensures { OnOk result (string_bytes text.new ≡ string_bytes text.old ++ way_text way.now) }
{
    text.push_str("way\t")?;
    text.push_str(code_name(way.opinion.verdict()))?;
    write_marks(text, way.marks.items())?;
    text.push_str("\n")?;
    Ok(())
}

fn write_marks(text: &mut String, marks: &[usize]) -> Result<(), NoMemory>
    ensures { OnOk result (string_bytes text.new ≡ string_bytes text.old
        ++ flat_map number_field marks.now) }
{
    for place in marks {
        write_number(text, *place)?;
    }
    Ok(())
}

fn verdict_word(ways: &[Way]) -> &'static str
    ensures { result.now ≡ verdict_word ways.now }
{
    if any_unasked(ways) {
        "unasked"
    } else if any_granting(ways) {
        "asked"
    } else {
        "denies"
    }
}

fn any_unasked(ways: &[Way]) -> bool
    ensures { result ≡ list_any is_unasked ways.now }
{
    match ways {
        [] => false,
        [way, rest @ ..] => is_unasked(way) || any_unasked(rest),
    }
}

fn any_granting(ways: &[Way]) -> bool
    ensures { result ≡ list_any is_granting ways.now }
{
    match ways {
        [] => false,
        [way, rest @ ..] => is_granting(way) || any_granting(rest),
    }
}

fn is_unasked(way: &Way) -> bool
    ensures { result ≡ is_unasked way.now }
{
    is_granting(way) && way.marks.is_empty()
}

fn is_granting(way: &Way) -> bool
    ensures { result ≡ is_granting way.now }
{
    is_success(way.opinion.verdict())
}

fn is_success(code: Code) -> bool
    ensures { result ≡ is_success code }
{
    code == Code::Success
}
