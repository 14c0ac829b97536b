ghost use Rattle.std.specs.Prelude.{◌≡◌};
ghost use Rattle.control_words.specs.Bracket.{control_of, control_of_entries};
ghost use Rattle.control_words.specs.Entries.{entries_in};

use crate::control::Control;
use crate::entries::{after_space, first_entry};
use crate::keywords::control_named;
use crate::table::Table;
use conf_lex::Token;
use pam_base::FaultKind;

/// Why a token isn't a control.
#[derive(Clone, Copy, Debug, PartialEq, Eq)]
pub struct ControlFault {
    pub kind: FaultKind,
}

impl ControlFault {
    pub(crate) fn of(kind: FaultKind) -> Self
        ensures { result ≡ record { kind = kind } }
    {
        ControlFault { kind }
    }
}

/// Returns the control that a token names (`pam.conf(5)`; libpam: `_pam_parse_control`): one of the
/// four keywords, or in brackets a list of entries `name=action` with white space between them and
/// on both sides of `=`, all in any case. It does not allocate.
///
/// A name is the word of a return code or `default`, for the codes that no entry names. An action
/// is `ignore`, `bad`, `die`, `ok`, `done`, `reset`, or a number from 1 to 255, a jump. If two
/// entries have the same name, the last one holds; a code that no entry covers is bad.
///
/// The fault is that of the first faulty entry: `BadControl` if it has no `=`, an empty name or an
/// empty action, else `BadReturnName` if the name is unknown, else `ZeroJump` if the action is the
/// number zero, else `BadAction` if it is anything else. A word without brackets that isn't a
/// keyword is `BadControl`.
pub fn control_of(token: &Token) -> Result<Control, ControlFault>
    ensures { result ≡ control_of token.now.bracketed token.now.text }
{
    let text = token.text.bytes();
    if token.bracketed {
        control_in_bracket(text)
    } else {
        control_named(text).ok_or(ControlFault::of(FaultKind::BadControl))
    }
}

fn control_in_bracket(text: &[u8]) -> Result<Control, ControlFault>
    ensures { result ≡ control_of_entries (entries_in text.now) }
{
    let mut table = Table::new();
    let mut rest = after_space(text);
    while !rest.is_empty() {
        let entry = first_entry(rest);
        table.fill(entry.name, entry.action)?;
        rest = after_space(entry.rest);
    }
    Ok(table.control())
}
