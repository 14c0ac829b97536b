ghost use Rattle.std.specs.Prelude.{◌≡◌, ◌≤◌};
ghost use Rattle.fail_delay.specs.Delay.{asked_delay, spread};

use crate::delay::LONGEST_REQUEST;
use crate::delay_fn::LONGEST_ASKED;

/// The delay for the longest request (libpam: `_pam_compute_delay`), both in microseconds: the
/// request, lengthened or shortened at random by up to half of it, so that an attacker learns
/// little from its length. 0 if there was no request; the request itself for the random word 0.
pub fn compute_delay(longest: u32, word: u64) -> u32
    requires { longest ≤ LONGEST_REQUEST }
    ensures asked { result ≡ asked_delay longest word }
    ensures bound { result ≤ LONGEST_ASKED }
{
    if longest == 0 {
        return 0;
    }
    let half = longest / 2;
    let remainder = (word % (2 * u64::from(half) + 1)) as u32;
    if remainder <= half {
        longest + remainder
    } else {
        longest - (remainder - half)
    }
}
