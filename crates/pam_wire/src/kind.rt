ghost use Rattle.std.specs.Prelude.{◌≡◌};
ghost use Rattle.pam_wire.specs.Kind.{call_of_number, number_of};

use pam_base::{ALL_CALLS, CallName};

/// The number of a call in its frame, from 1 to 16.
pub(crate) fn number_of(call: CallName) -> u8
    ensures { result ≡ number_of call }
{
    match call {
        CallName::Start => 1,
        CallName::End => 2,
        CallName::Run(func) => 3 + func as u8,
        CallName::SetItem => 9,
        CallName::GetItem => 10,
        CallName::PutEnv => 11,
        CallName::GetEnv => 12,
        CallName::EnvList => 13,
        CallName::FailDelay => 14,
        CallName::DelayFn => 15,
        CallName::Reply => 16,
    }
}

/// The call of this number; None if and only if there is none.
pub(crate) fn call_of_number(number: u8) -> Option<CallName>
    ensures { result ≡ call_of_number number }
{
    ALL_CALLS
        .iter()
        .copied()
        .find(|call| number_of(*call) == number)
}
