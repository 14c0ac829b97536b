ghost use Rattle.std.specs.Prelude.{◌≡◌, ◌++◌, OnOk, option_map};
ghost use Rattle.std.specs.List.{find, list_all};
ghost use Rattle.control_words.specs.Control.{action_at};
ghost use Rattle.control_words.specs.Keyword.{all_keywords, keyword_word};
ghost use Rattle.service_print.specs.Controls.{action_word, control_text, entries_among, entry_text, has_entry, keyword_of, same_action, same_control, is_keyword_for};
ghost use Rattle.service_print.specs.Tokens.{spaced};

use control_words::{ALL_KEYWORDS, Action, Control, Keyword, control_named};
use pam_base::{ALL_CODES, Code, NoMemory, Word, code_word};
use std::alloc::Global;

/// Adds a control: the keyword that is short for it, or its entries in brackets.
pub fn add_control(alloc: Global, control: &Control, line: &mut Vec<u8>) -> Result<(), NoMemory>
    ensures { OnOk result (line.new.items ≡ line.old.items ++ control_text control.now) }
{
    match keyword_of(control) {
        Some(keyword) => line.extend_from_slice(keyword.word().as_bytes())?,
        None => {
            line.push(b'[')?;
            add_entries(alloc, &ALL_CODES, control, line)?;
            line.push(b']')?;
        }
    }
    Ok(())
}

// The keyword whose control has the same action for each code.
fn keyword_of(control: &Control) -> Option<Keyword>
    ensures { option_map keyword_word result ≡ keyword_of control.now }
{
    keyword_among(control)
}

fn keyword_among(control: &Control) -> Option<Keyword>
    ensures { result ≡ find (λ keyword. is_keyword_for
        (keyword_word keyword) control.now) all_keywords }
{
    ALL_KEYWORDS
        .iter()
        .copied()
        .find(|keyword| is_keyword_for(*keyword, control))
}

fn is_keyword_for(keyword: Keyword, control: &Control) -> bool
    ensures { result ≡ is_keyword_for (keyword_word keyword) control.now }
{
    match control_named(keyword.word().as_bytes()) {
        Some(table) => same_control(control, &table),
        None => false,
    }
}

fn same_control(control: &Control, other: &Control) -> bool
    ensures { result ≡ same_control control.now other.now }
{
    agree_at(&ALL_CODES, control, other)
}

// Whether two controls have the same action for each of these codes.
fn agree_at(codes: &[Code], control: &Control, other: &Control) -> bool
    ensures { result ≡ list_all (λ code. same_action (action_at control.now code)
        (action_at other.now code)) codes.now }
{
    codes.iter().all(|code| same_action(control.action(*code), other.action(*code)))
}

fn same_action(action: Action, other: Action) -> bool
    ensures { result ≡ same_action action other }
{
    action == other
}

// Adds the entries of those codes whose action isn't bad, with a space between them.
fn add_entries(
    alloc: Global,
    codes: &[Code],
    control: &Control,
    line: &mut Vec<u8>,
) -> Result<(), NoMemory>
    ensures { OnOk result (line.new.items ≡ line.old.items
        ++ spaced (entries_among control.now codes.now)) }
{
    let mut is_first = true;
    for code in codes {
        if has_entry(control, *code) {
            if !is_first {
                line.push(b' ')?;
            }
            add_entry(alloc, control, *code, line)?;
            is_first = false;
        }
    }
    Ok(())
}

// A code without an entry is bad.
fn has_entry(control: &Control, code: Code) -> bool
    ensures { result ≡ has_entry control.now code }
{
    !same_action(control.action(code), Action::Bad)
}

fn add_entry(
    alloc: Global,
    control: &Control,
    code: Code,
    line: &mut Vec<u8>,
) -> Result<(), NoMemory>
    ensures { OnOk result (line.new.items ≡ line.old.items ++ entry_text control.now code) }
{
    line.extend_from_slice(code_word(code).as_bytes())?;
    line.push(b'=')?;
    add_action(alloc, control.action(code), line)
}

fn add_action(alloc: Global, action: Action, line: &mut Vec<u8>) -> Result<(), NoMemory>
    ensures { OnOk result (line.new.items ≡ line.old.items ++ action_word action) }
{
    match action {
        Action::Jump(number) => {
            line.extend_from_slice(format!(in alloc; "{number}")?.as_bytes())?;
        }
        _ => line.extend_from_slice(action.word().as_bytes())?,
    }
    Ok(())
}
