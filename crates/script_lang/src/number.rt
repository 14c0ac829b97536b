ghost use Rattle.std.specs.Prelude.{◌≡◌, ◌≤◌, ◌<◌, ◌^◌, length, true};
ghost use Rattle.std.specs.Char.{digit_value, is_digit};
ghost use Rattle.std.specs.List.{list_all};
ghost use Rattle.script_lang.specs.Number.{number_of_word, any_number_of_word, random_of_word, moment_of_word, number_of_digits, value_of_digits};

const MAX_MOMENT: u64 = 1_000_000_000_000;

/// A number of 32 bits: 1 to 10 decimal digits, or `0x` and 1 to 8 hexadecimal digits.
pub(crate) fn number_in(word: &[u8]) -> Option<u32>
    ensures { result ≡ number_of_word word.now }
{
    let number = any_number_in(word)?;
    u32::try_from(number).ok()
}

fn any_number_in(word: &[u8]) -> Option<u64>
    ensures { result ≡ any_number_of_word word.now }
{
    match word {
        [b'0', b'x', digits @ ..] => value_in(16, 8, digits),
        _ => value_in(10, 10, word),
    }
}

/// A random word of the clock: 1 to 19 decimal digits.
pub(crate) fn random_in(word: &[u8]) -> Option<u64>
    ensures { result ≡ random_of_word word.now }
{
    value_in(10, 19, word)
}

/// A time of the clock in seconds since 1970: 1 to 13 decimal digits, at most 10^12.
pub(crate) fn moment_in(word: &[u8]) -> Option<u64>
    ensures { result ≡ moment_of_word word.now }
{
    let moment = value_in(10, 13, word)?;
    if moment <= MAX_MOMENT {
        Some(moment)
    } else {
        None
    }
}

// The value of 1 to `most` digits of this radix; None if and only if the word isn't such digits.
fn value_in(radix: u32, most: usize, digits: &[u8]) -> Option<u64>
    requires low { 2 ≤ radix }
    requires high { radix ≤ 16 }
    requires fits { radix ^ most ≤ 2 ^ 64 }
    ensures { result ≡ number_of_digits radix most digits.now }
{
    if digits.is_empty() || digits.len() > most || !are_digits_of(radix, digits) {
        return None;
    }
    Some(value_of(radix, digits))
}

fn are_digits_of(radix: u32, digits: &[u8]) -> bool
    requires low { 2 ≤ radix }
    requires high { radix ≤ 16 }
    ensures { result ≡ list_all (λ digit. is_digit digit radix) digits.now }
{
    digits
        .iter()
        .all(|digit| char::from(*digit).is_digit(radix))
}

fn value_of(radix: u32, digits: &[u8]) -> u64
    requires low { 2 ≤ radix }
    requires high { radix ≤ 16 }
    requires fits { radix ^ length digits.now ≤ 2 ^ 64 }
    requires digits { list_all (λ digit. is_digit digit radix) digits.now ≡ true }
    ensures { result ≡ value_of_digits radix digits.now }
{
    let mut value: u64 = 0;
    for digit in digits {
        value = u64::from(radix) * value + u64::from(digit_value(*digit));
    }
    value
}

// From 0 to 35, for digits and letters in either case; 36 for other bytes.
fn digit_value(byte: u8) -> u8
    ensures { result ≡ digit_value byte }
{
    match byte {
        b'0'..=b'9' => byte - b'0',
        b'A'..=b'Z' => byte - b'A' + 10,
        b'a'..=b'z' => byte - b'a' + 10,
        _ => 36,
    }
}
