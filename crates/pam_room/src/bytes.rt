ghost use Rattle.std.specs.Prelude.{◌≡◌, ◌≤◌, length, take};

/// The first bytes of a text, at most n.
pub fn first_bytes(text: &[u8], most: usize) -> &[u8]
    ensures front { result.now ≡ take most text.now }
    ensures few { length result.now ≤ most }
{
    if text.len() <= most {
        text
    } else {
        &text[..most]
    }
}
