ghost use Rattle.std.specs.Prelude.{◌≡◌, ◌++◌, OnOk, string_bytes};
ghost use Rattle.explain_lines.specs.Text.{decided_text, decider, decider_words, end_from, end_text, head_text, is_same_impression, is_same_state, kind_words, pass_text, stack_words, waits_text};

use crate::origin::Origin;
use crate::row::{Fate, Row};
use crate::row_text::{is_same, write_rows};
use handler_chain::{Impression, Opinion, PassKind};
use pam_base::{Func, NoMemory, Word, code_name};
use service_load::RuleType;

/// Adds the text of a run of a stack.
pub fn write_run(
    text: &mut String,
    number: u32,
    func: Func,
    rule_type: RuleType,
    kind: PassKind,
    origins: &[Origin],
    rows: &[Row],
) -> Result<(), NoMemory>
    ensures { OnOk result (string_bytes text.new ≡ string_bytes text.old
        ++ pass_text number func rule_type kind origins.now rows.now) }
{
    write_head(text, number, func, rule_type, kind)?;
    write_rows(text, origins, rows)?;
    write_end(text, rows)
}

// Adds its first line.
fn write_head(
    text: &mut String,
    number: u32,
    func: Func,
    rule_type: RuleType,
    kind: PassKind,
) -> Result<(), NoMemory>
    ensures { OnOk result (string_bytes text.new ≡ string_bytes text.old
        ++ head_text number func rule_type kind) }
{
    write!(text, "{number} ")?;
    text.push_str(func.word())?;
    write_stack(text, func, rule_type, kind)
}

fn write_stack(
    text: &mut String,
    func: Func,
    rule_type: RuleType,
    kind: PassKind,
) -> Result<(), NoMemory>
    ensures { OnOk result (string_bytes text.new ≡ string_bytes text.old
        ++ stack_words func rule_type kind) }
{
    text.push_str(": ")?;
    text.push_str(rule_type.word())?;
    text.push_str(kind_words(func, kind))?;
    Ok(())
}

fn kind_words(func: Func, kind: PassKind) -> &'static str
    ensures { result.now ≡ kind_words func kind }
{
    if func == Func::ChAuthTok {
        match kind {
            PassKind::Keep => " stack, first pass\n",
            PassKind::Follow => " stack, second pass\n",
            PassKind::Loose => " stack, without cached codes\n",
        }
    } else {
        match kind {
            PassKind::Keep => " stack\n",
            PassKind::Follow => " stack, by cached codes\n",
            PassKind::Loose => " stack, without cached codes\n",
        }
    }
}

// Adds its last line.
fn write_end(text: &mut String, rows: &[Row]) -> Result<(), NoMemory>
    ensures { OnOk result (string_bytes text.new ≡ string_bytes text.old ++ end_text rows.now) }
{
    write_end_from(text, Opinion::opening(), None, rows)
}

// After rows that led to a state, which one of them set last, if any did.
fn write_end_from(
    text: &mut String,
    now: Opinion,
    decided: Option<usize>,
    rows: &[Row],
) -> Result<(), NoMemory>
    ensures { OnOk result (string_bytes text.new ≡ string_bytes text.old
        ++ end_from now decided rows.now) }
{
    let [row, rest @ ..] = rows else {
        return write_decided(text, now, decided);
    };
    match row.fate {
        Fate::Ran { state, .. } => {
            let decided = decider(is_same_state(now, state), row.place, decided);
            write_end_from(text, state, decided, rest)
        }
        Fate::Waits => write_waits(text, row.place),
        Fate::Jumped { .. } | Fate::Ended { .. } | Fate::Unreached => {
            write_end_from(text, now, decided, rest)
        }
    }
}

fn is_same_state(a: Opinion, b: Opinion) -> bool
    ensures { result ≡ is_same_state a b }
{
    is_same_impression(a.impression, b.impression) && is_same(a.status, b.status)
}

fn is_same_impression(a: Impression, b: Impression) -> bool
    ensures { result ≡ is_same_impression a b }
{
    a == b
}

fn decider(is_same: bool, place: usize, decided: Option<usize>) -> Option<usize>
    ensures { result ≡ decider is_same place decided }
{
    if is_same { decided } else { Some(place) }
}

fn write_waits(text: &mut String, place: usize) -> Result<(), NoMemory>
    ensures { OnOk result (string_bytes text.new ≡ string_bytes text.old ++ waits_text place) }
{
    write!(text, "  returns INCOMPLETE, waits at rule {place}\n")?;
    Ok(())
}

fn write_decided(text: &mut String, state: Opinion, decided: Option<usize>) -> Result<(), NoMemory>
    ensures { OnOk result (string_bytes text.new ≡ string_bytes text.old
        ++ decided_text state decided) }
{
    text.push_str("  returns ")?;
    text.push_str(code_name(state.verdict()))?;
    write_decider(text, decided)
}

fn write_decider(text: &mut String, decided: Option<usize>) -> Result<(), NoMemory>
    ensures { OnOk result (string_bytes text.new ≡ string_bytes text.old
        ++ decider_words decided) }
{
    match decided {
        Some(by) => write!(text, ", decided by rule {by}\n")?,
        None => text.push_str(", no rule counted\n")?,
    }
    Ok(())
}
