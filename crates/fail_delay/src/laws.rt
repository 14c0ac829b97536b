//! What the longest request and the requested delay are, in other words.
ghost use Rattle.std.specs.Prelude.{◌≡◌, ◌≤◌, ◌<◌, ◌+◌, ◌-◌, ◌/◌, ℕ, List, All, Any, ◌⊎◌};
ghost use Rattle.fail_delay.specs.Delay.{counted_request, longest_of, asked_delay};

use crate::delay::LONGEST_REQUEST;
use crate::delay_fn::LONGEST_ASKED;

/// The longest of some requests is no shorter than any of them, each counted to 60 seconds at most,
/// and is one of them if there is one.
pub fn longest_is_the_maximum()
    ensures no_shorter { (requests : List ℕ) → All (λ micros. counted_request micros
        ≤ longest_of requests) requests }
    ensures one_of_them { (requests : List ℕ) → 0 < longest_of requests →
        Any (λ micros. counted_request micros ≡ longest_of requests) requests }
    ensures counted { (requests : List ℕ) → longest_of requests ≤ LONGEST_REQUEST }
{}

/// The requested delay lies within half of the longest request on both sides, and each delay there
/// is given by some random word.
pub fn asked_within_half()
    ensures above { (longest word : ℕ) → asked_delay longest word ≤ longest + longest / 2 }
    ensures below { (longest word : ℕ) → longest - longest / 2 ≤ asked_delay longest word }
    ensures each { (longest delay : ℕ) → longest - longest / 2 ≤ delay →
        delay ≤ longest + longest / 2 →
        (word : ℕ) × (asked_delay longest word ≡ delay) }
    ensures bound { (longest word : ℕ) → longest ≤ LONGEST_REQUEST →
        asked_delay longest word ≤ LONGEST_ASKED }
{}

/// With the word 0 the requested delay is the longest request; it is 0 if and only if no delay was
/// requested.
pub fn zero_asks_for_nothing()
    ensures word { (longest : ℕ) → asked_delay longest 0 ≡ longest }
    ensures nothing { (word : ℕ) → asked_delay 0 word ≡ 0 }
    ensures something { (longest word : ℕ) → 0 < longest → 0 < asked_delay longest word }
{}
