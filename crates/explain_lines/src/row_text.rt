ghost use Rattle.std.specs.Prelude.{◌≡◌, ◌++◌, codes, decimal, OnOk, string_bytes, option_copied};
ghost use Rattle.std.specs.List.{flat_map};
ghost use Rattle.pam_base.specs.Code.{name_of};
ghost use Rattle.explain_lines.specs.Text.{action_words, deciding_words, fate_words, impression_word, is_same, made_words, origin_at, origin_words, ran_words, row_head, row_text, state_words};

use crate::origin::Origin;
use crate::row::{Fate, Row};
use control_words::{Action, module_name};
use handler_chain::{Impression, Opinion};
use pam_base::{Code, NoMemory, Word, code_name, push_quoted};

/// Adds the lines of rows.
pub fn write_rows(text: &mut String, origins: &[Origin], rows: &[Row]) -> Result<(), NoMemory>
    ensures { OnOk result (string_bytes text.new ≡ string_bytes text.old
        ++ flat_map (row_text origins.now) rows.now) }
{
    for row in rows {
        write_row(text, origins, row)?;
    }
    Ok(())
}

fn write_row(text: &mut String, origins: &[Origin], row: &Row) -> Result<(), NoMemory>
    ensures { OnOk result (string_bytes text.new ≡ string_bytes text.old
        ++ row_text origins.now row.now) }
{
    write_head(text, origins, row)?;
    write_fate(text, row.fate)?;
    text.push_str("\n")?;
    Ok(())
}

fn write_head(text: &mut String, origins: &[Origin], row: &Row) -> Result<(), NoMemory>
    ensures { OnOk result (string_bytes text.new ≡ string_bytes text.old
        ++ row_head origins.now row.now) }
{
    let place = row.place;
    write!(text, "  {place} ")?;
    write_origin(text, origins, place)?;
    text.push_str(" ")?;
    push_quoted(text, module_name(row.path.bytes()))
}

fn write_origin(text: &mut String, origins: &[Origin], place: usize) -> Result<(), NoMemory>
    ensures { OnOk result (string_bytes text.new ≡ string_bytes text.old
        ++ origin_words (origin_at origins.now place)) }
{
    if place > 0 {
        if let Some(origin) = origins.get(place - 1) {
            push_quoted(text, origin.file.bytes())?;
            let line = origin.line;
            write!(text, ":{line}")?;
            return Ok(());
        }
    }
    text.push_str("?")?;
    Ok(())
}

fn write_fate(text: &mut String, fate: Fate) -> Result<(), NoMemory>
    ensures { OnOk result (string_bytes text.new ≡ string_bytes text.old ++ fate_words fate) }
{
    match fate {
        Fate::Ran {
            answer,
            deciding,
            action,
            state,
        } => write_ran(text, answer, deciding, action, state)?,
        Fate::Waits => text.push_str(" INCOMPLETE: the call waits here")?,
        Fate::Jumped { by } => write!(text, ": not run, rule {by} jumps over it")?,
        Fate::Ended { by } => write!(text, ": not run, rule {by} ends the list")?,
        Fate::Unreached => text.push_str(": not run, the call waits")?,
    }
    Ok(())
}

fn write_ran(
    text: &mut String,
    answer: Code,
    deciding: Code,
    action: Action,
    state: Opinion,
) -> Result<(), NoMemory>
    ensures { OnOk result (string_bytes text.new ≡ string_bytes text.old
        ++ ran_words answer deciding action state) }
{
    text.push_str(" ")?;
    text.push_str(code_name(answer))?;
    write_deciding(text, is_same(answer, deciding), deciding)?;
    write_made(text, action, state)
}

pub fn is_same(a: Code, b: Code) -> bool
    ensures { result ≡ is_same a b }
{
    a == b
}

fn write_made(text: &mut String, action: Action, state: Opinion) -> Result<(), NoMemory>
    ensures { OnOk result (string_bytes text.new ≡ string_bytes text.old
        ++ made_words action state) }
{
    text.push_str(": ")?;
    write_action(text, action)?;
    text.push_str(", ")?;
    write_state(text, state)
}

fn write_deciding(text: &mut String, is_same: bool, deciding: Code) -> Result<(), NoMemory>
    ensures { OnOk result (string_bytes text.new ≡ string_bytes text.old
        ++ deciding_words is_same deciding) }
{
    if !is_same {
        text.push_str(" (cached ")?;
        text.push_str(code_name(deciding))?;
        text.push_str(")")?;
    }
    Ok(())
}

fn write_action(text: &mut String, action: Action) -> Result<(), NoMemory>
    ensures { OnOk result (string_bytes text.new ≡ string_bytes text.old ++ action_words action) }
{
    match action {
        Action::Jump(n) => write!(text, "jump {n}")?,
        _ => text.push_str(action.word())?,
    }
    Ok(())
}

fn write_state(text: &mut String, state: Opinion) -> Result<(), NoMemory>
    ensures { OnOk result (string_bytes text.new ≡ string_bytes text.old ++ state_words state) }
{
    text.push_str(impression_word(state.impression))?;
    text.push_str(" ")?;
    text.push_str(code_name(state.status))?;
    Ok(())
}

fn impression_word(impression: Impression) -> &'static str
    ensures { result.now ≡ impression_word impression }
{
    match impression {
        Impression::Undefined => "undefined",
        Impression::Positive => "positive",
        Impression::Negative => "negative",
    }
}
