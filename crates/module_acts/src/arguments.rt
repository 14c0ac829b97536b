ghost use Rattle.std.specs.Prelude.{◌≡◌};
ghost use Rattle.module_acts.specs.Arguments.{has_argument, short_number};

use pam_base::{Texts, number_in};

/// Whether a word is among the arguments of a module's line (`pam.conf(5)`).
pub fn has_argument(word: &[u8], args: &Texts) -> bool
    ensures { result ≡ has_argument word.now args.now }
{
    args.items().iter().any(|arg| arg.bytes() == word)
}

/// The number that an argument of a module's line gives, of at most this many digits; None if the word is longer, or isn't
/// a decimal number below 2^32.
pub fn short_number(word: &[u8], digits: usize) -> Option<u32>
    ensures { result ≡ short_number digits word.now }
{
    if word.len() <= digits {
        number_in(word)
    } else {
        None
    }
}
