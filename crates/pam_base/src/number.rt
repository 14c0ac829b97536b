ghost use Rattle.std.specs.Prelude.{◌≡◌, ◌≤◌, length, true};
ghost use Rattle.std.specs.Char.{is_ascii_digit};
ghost use Rattle.std.specs.List.{list_all};
ghost use Rattle.pam_base.specs.Number.{is_numeral, number_of_word, value_of_digits};

const MAX_DIGITS: usize = 10;

/// The number that a word means: 1 to 10 decimal digits, leading zeros allowed, with a value of at most 4,294,967,295.
/// None for all other words.
pub fn number_in(word: &[u8]) -> Option<u32>
    ensures { result ≡ number_of_word word.now }
{
    if !is_numeral(word) {
        return None;
    }
    let value = value_of_digits(word);
    if value <= u64::from(u32::MAX) {
        Some(value as u32)
    } else {
        None
    }
}

fn is_numeral(word: &[u8]) -> bool
    ensures { result ≡ is_numeral word.now }
{
    !word.is_empty() && word.len() <= MAX_DIGITS && are_digits(word)
}

/// Whether all bytes of the word are decimal digits; an empty word counts as such.
pub fn are_digits(word: &[u8]) -> bool
    ensures { result ≡ list_all is_ascii_digit word.now }
{
    word.iter().all(|byte| byte.is_ascii_digit())
}

fn value_of_digits(digits: &[u8]) -> u64
    requires { is_numeral digits.now ≡ true }
    ensures { result ≡ value_of_digits digits.now }
{
    let mut value: u64 = 0;
    for digit in digits {
        value = 10 * value + u64::from(*digit - b'0');
    }
    value
}
