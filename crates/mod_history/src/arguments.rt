ghost use Rattle.std.specs.Prelude.{◌≡◌};
ghost use Rattle.mod_history.specs.Pwhistory.{remember_of};

use module_acts::short_number;
use pam_room::Call;

/// How many hashes of a user are kept.
#[tactic(auto, unfolding(crate::specs::Pwhistory::remember_of))]
pub(crate) fn remember_of(call: &Call) -> u32
    ensures { result ≡ remember_of call.now.args.now }
{
    match call.value(b"remember=") {
        Some(word) => short_number(word, 3).unwrap_or(10),
        None => 10,
    }
}
