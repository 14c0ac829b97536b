ghost use Rattle.std.specs.Prelude.{◌≡◌, ◌≤◌, ◌<◌, ◌-◌, false, length, drop, slice_index};
ghost use Rattle.std.specs.Char.{digit_value};
ghost use Rattle.pam_base.specs.Bytes.{has_byte};
ghost use Rattle.report_lines.specs.Words.{before_last, before_space, after_space, guessed_number, guessed_status, last_word};

use pam_base::first_place;

/// What comes before the first space; everything if there is none.
pub fn before_space(text: &[u8]) -> &[u8]
    ensures { result.now ≡ before_space text.now }
{
    match first_place(b' ', text) {
        Some(n) => &text[..n],
        None => text,
    }
}

/// What follows the first space; nothing if there is none.
pub fn after_space(text: &[u8]) -> &[u8]
    ensures { result.now ≡ after_space text.now }
{
    match first_place(b' ', text) {
        Some(n) => &text[n + 1..],
        None => &[],
    }
}

/// What follows the last space; everything if there is none.
pub fn last_word(text: &[u8]) -> &[u8]
    ensures { result.now ≡ last_word text.now }
{
    let n = last_place(text);
    &text[n..]
}

/// What comes before the last space; nothing if there is none.
pub fn before_last(text: &[u8]) -> &[u8]
    ensures { result.now ≡ before_last text.now }
{
    let n = last_place(text);
    if n > 0 { &text[..n - 1] } else { &[] }
}

// The position after the last space; 0 if there is none.
fn last_place(text: &[u8]) -> usize
    ensures within { result ≤ length text.now }
    ensures none { has_byte 32 (drop result text.now) ≡ false }
    ensures space { 0 < result → slice_index text.now (result - 1) ≡ 32 }
{
    let mut n = text.len();
    while n > 0 {
        if text[n - 1] == b' ' {
            return n;
        }
        n -= 1;
    }
    0
}

/// The number that decimal digits may mean.
pub fn number_of(word: &[u8]) -> u64
    ensures { result ≡ guessed_number word.now }
{
    let mut value: u64 = 0;
    for digit in word {
        value = value
            .wrapping_mul(10)
            .wrapping_add(u64::from(digit.saturating_sub(b'0')));
    }
    value
}

/// The status that hexadecimal digits may mean.
pub fn status_of(word: &[u8]) -> u32
    ensures { result ≡ guessed_status word.now }
{
    let mut value: u32 = 0;
    for digit in word {
        value = value.wrapping_mul(16).wrapping_add(digit_value(*digit));
    }
    value
}

/// The value of a digit or of a letter, from 0 to 35; 36 for any other byte.
pub fn digit_value(byte: u8) -> u32
    ensures { result ≡ digit_value byte }
{
    match byte {
        b'0'..=b'9' => u32::from(byte - b'0'),
        b'A'..=b'Z' => u32::from(byte - b'A') + 10,
        b'a'..=b'z' => u32::from(byte - b'a') + 10,
        _ => 36,
    }
}
