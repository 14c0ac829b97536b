ghost use Rattle.std.specs.Prelude.{◌≡◌, ◌++◌, OnOk, string_bytes};
ghost use Rattle.ways_lines.specs.Controls.{action_word, control_text, default_text, entries_text};
ghost use Rattle.ways_lines.specs.Controls.{entry_text, pair_text, same_action, usual_action};

use control_words::{Action, Control};
use pam_base::{ALL_CODES, Code, NoMemory, Word, code_word};

/// Adds a control in brackets: the action of each code that has another one than most, and then
/// that of all others.
#[tactic(auto, unfolding(crate::specs::Controls::control_text))]
pub fn write_control(text: &mut String, control: &Control) -> Result<(), NoMemory>
    ensures { OnOk result (string_bytes text.new
        ≡ string_bytes text.old ++ control_text control.now) }
{
    text.push_str("[")?;
    write_entries(text, &ALL_CODES, control)?;
    write_default(text, usual_action(control))
}

// The action of the codes that no configuration names: that of SYMBOL_ERR.
fn usual_action(control: &Control) -> Action
    ensures { result ≡ usual_action control.now }
{
    control.action(Code::SymbolErr)
}

#[tactic(auto, unfolding(crate::specs::Controls::entries_text))]
fn write_entries(text: &mut String, codes: &[Code], control: &Control) -> Result<(), NoMemory>
    ensures { OnOk result (string_bytes text.new ≡ string_bytes text.old
        ++ entries_text control.now codes.now) }
{
    for code in codes {
        write_entry(text, control, *code)?;
    }
    Ok(())
}

fn write_entry(text: &mut String, control: &Control, code: Code) -> Result<(), NoMemory>
    ensures { OnOk result (string_bytes text.new ≡ string_bytes text.old
        ++ entry_text control.now code) }
{
    if same_action(control.action(code), usual_action(control)) {
        return Ok(());
    }
    write_pair(text, code, control.action(code))
}

fn same_action(action: Action, other: Action) -> bool
    ensures { result ≡ same_action action other }
{
    action == other
}

#[tactic(auto, unfolding(crate::specs::Controls::pair_text))]
fn write_pair(text: &mut String, code: Code, action: Action) -> Result<(), NoMemory>
    ensures { OnOk result (string_bytes text.new
        ≡ string_bytes text.old ++ pair_text code action) }
{
    text.push_str(code_word(code))?;
    text.push_str("=")?;
    write_action(text, action)?;
    text.push_str(" ")?;
    Ok(())
}

#[tactic(auto, unfolding(crate::specs::Controls::default_text))]
fn write_default(text: &mut String, action: Action) -> Result<(), NoMemory>
    ensures { OnOk result (string_bytes text.new ≡ string_bytes text.old ++ default_text action) }
{
    text.push_str("default=")?;
    write_action(text, action)?;
    text.push_str("]")?;
    Ok(())
}

fn write_action(text: &mut String, action: Action) -> Result<(), NoMemory>
    ensures { OnOk result (string_bytes text.new ≡ string_bytes text.old ++ action_word action) }
{
    match action {
        Action::Jump(number) => write!(text, "{number}")?,
        _ => text.push_str(action.word())?,
    }
    Ok(())
}
