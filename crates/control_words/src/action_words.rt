ghost use Rattle.std.specs.Prelude.{◌≡◌, true, min};
ghost use Rattle.std.specs.Char.{is_ascii_digit};
ghost use Rattle.std.specs.List.{list_all};
ghost use Rattle.pam_base.specs.Number.{value_of_digits};
ghost use Rattle.control_words.specs.Bracket.{action_of_word, named_action};

use crate::bracket::ControlFault;
use crate::control::Action;
use pam_base::{FaultKind, are_digits, find_any_case};

/// The actions that have a word.
const PLAIN_ACTIONS: [Action; 6] = [
    Action::Ignore,
    Action::Bad,
    Action::Die,
    Action::Ok,
    Action::Done,
    Action::Reset,
];

/// The action that a word in brackets names (`pam.conf(5)`).
pub(crate) fn action_named(word: &[u8]) -> Result<Action, ControlFault>
    ensures { result ≡ action_of_word word.now }
{
    if let Some(action) = plain_action(word) {
        return Ok(action);
    }
    if word.is_empty() || !are_digits(word) {
        return Err(ControlFault::of(FaultKind::BadAction));
    }
    match capped_value(word) {
        0 => Err(ControlFault::of(FaultKind::ZeroJump)),
        number @ 1..=255 => Ok(Action::Jump(number as u8)),
        _ => Err(ControlFault::of(FaultKind::BadAction)),
    }
}

fn plain_action(word: &[u8]) -> Option<Action>
    ensures { result ≡ named_action word.now }
{
    find_any_case(&PLAIN_ACTIONS, word)
}

// The value of some digits, or 256 if it is above 255.
fn capped_value(digits: &[u8]) -> u32
    requires { list_all is_ascii_digit digits.now ≡ true }
    ensures { result ≡ min (value_of_digits digits.now) 256 }
{
    let mut value: u32 = 0;
    for digit in digits {
        value = (10 * value + u32::from(*digit - b'0')).min(256);
    }
    value
}
