ghost use Rattle.std.specs.Prelude.{◌≡◌};
ghost use Rattle.own_files.specs.Entries.{has_entry, is_digit, is_entry, is_number, may_follow};

use pam_base::{Lines, Parts};

/// Whether a line of a text has the form of an entry of `shadow(5)`: nine fields between colons, of which the third to the
/// eighth are numbers or empty.
pub fn has_entry(text: &[u8]) -> bool
    ensures { result ≡ has_entry text.now }
{
    let mut lines = Lines::new(text);
    while let Some(line) = lines.next_line() {
        if is_entry(line) {
            return true;
        }
    }
    false
}

fn is_entry(line: &[u8]) -> bool
    ensures { result ≡ is_entry line.now }
{
    let mut fields = Parts::new(b':', line);
    let mut before = 0u8;
    while let Some(field) = fields.next_part() {
        if !may_follow(before, field) {
            return false;
        }
        before += 1;
    }
    before == 9
}

// Whether a field may come after so many others.
fn may_follow(before: u8, field: &[u8]) -> bool
    ensures { result ≡ may_follow before field.now }
{
    (before < 2 || before == 8) || (before < 8 && is_number(field))
}

fn is_number(field: &[u8]) -> bool
    ensures { result ≡ is_number field.now }
{
    field.iter().all(|b| is_digit(*b))
}

fn is_digit(b: u8) -> bool
    ensures { result ≡ is_digit b }
{
    48 <= b && b <= 57
}
