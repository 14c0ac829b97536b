ghost use Rattle.std.specs.Prelude.{◌≡◌, ◌≤◌};
ghost use Rattle.mod_unix.specs.Aging.{aged, code_at_age, code_after_change, day_of, is_past, is_reached};

use account_db::Shadow;
use pam_base::Code;

/// The day of a time, since 1970.
pub(crate) fn day_of(moment: u64) -> u64
    ensures { result ≡ day_of moment }
{
    moment / 86_400
}

/// Whether an account or its password is too old today (`shadow(5)`).
#[tactic(auto, unfolding(crate::specs::Aging::aged))]
pub(crate) fn aged(today: u64, entry: &Shadow) -> Code
    ensures { result ≡ aged today entry.now }
{
    if is_reached(entry.expire, today) {
        return Code::AcctExpired;
    }
    code_after_change(today, entry.last_change, entry.max, entry.inactive)
}

fn is_reached(day: Option<u32>, today: u64) -> bool
    ensures { result ≡ is_reached day today }
{
    match day {
        Some(day) => u64::from(day) <= today,
        None => false,
    }
}

fn code_after_change(today: u64, last: Option<u32>, max: Option<u32>, inactive: Option<u32>) -> Code
    ensures { result ≡ code_after_change today last max inactive }
{
    match last {
        Some(last) => {
            if last == 0 {
                Code::NewAuthtokReqd
            } else if today < u64::from(last) {
                Code::Success
            } else {
                code_at_age(today - u64::from(last), max, inactive)
            }
        }
        None => Code::Success,
    }
}

fn code_at_age(age: u64, max: Option<u32>, inactive: Option<u32>) -> Code
    ensures { result ≡ code_at_age age max inactive }
{
    match max {
        Some(max) => {
            if is_past(age, max, inactive) {
                Code::AuthtokExpired
            } else if u64::from(max) < age {
                Code::NewAuthtokReqd
            } else {
                Code::Success
            }
        }
        None => Code::Success,
    }
}

fn is_past(age: u64, max: u32, inactive: Option<u32>) -> bool
    ensures { result ≡ is_past age max inactive }
{
    match inactive {
        Some(inactive) => u64::from(max) + u64::from(inactive) < age,
        None => false,
    }
}
