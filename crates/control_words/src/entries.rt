ghost use Rattle.std.specs.Prelude.{◌≡◌};
ghost use Rattle.std.specs.List.{before_first, position};
ghost use Rattle.pam_base.specs.White.{is_white};
ghost use Rattle.control_words.specs.Entries.{after_space, ends_name, first_entry, from_first, is_other};

use pam_base::is_white;

/// An entry `name=action` as it is written, and the text after it. Without a `=` its action is
/// empty.
#[derive(Clone, Copy)]
pub(crate) struct ControlPair<'a> {
    pub(crate) name: &'a [u8],
    pub(crate) action: &'a [u8],
    pub(crate) rest: &'a [u8],
}

/// The entry at the beginning of a text, whose first byte isn't white space.
pub(crate) fn first_entry(text: &[u8]) -> ControlPair
    ensures name { result.name.now ≡ (first_entry text.now).entry.name }
    ensures action { result.action.now ≡ (first_entry text.now).entry.action }
    ensures rest { result.rest.now ≡ (first_entry text.now).rest }
{
    let (name, followed) = up_to_name_end(text);
    match after_space(followed) {
        [b'=', followed @ ..] => {
            let (action, rest) = up_to_space(after_space(followed));
            ControlPair { name, action, rest }
        }
        rest => ControlPair {
            name,
            action: &[],
            rest,
        },
    }
}

/// The text without the white space at its beginning.
pub(crate) fn after_space(text: &[u8]) -> &[u8]
    ensures { result.now ≡ after_space text.now }
{
    let end = first_other(text).unwrap_or(text.len());
    &text[end..]
}

fn up_to_name_end(text: &[u8]) -> (&[u8], &[u8])
    ensures front { result.0.now ≡ before_first ends_name text.now }
    ensures rest { result.1.now ≡ from_first ends_name text.now }
{
    let end = first_name_end(text).unwrap_or(text.len());
    text.split_at(end)
}

fn up_to_space(text: &[u8]) -> (&[u8], &[u8])
    ensures front { result.0.now ≡ before_first is_white text.now }
    ensures rest { result.1.now ≡ from_first is_white text.now }
{
    let end = first_space(text).unwrap_or(text.len());
    text.split_at(end)
}

fn first_other(text: &[u8]) -> Option<usize>
    ensures { result ≡ position is_other text.now }
{
    text.iter().position(|byte| !is_white(*byte))
}

fn first_name_end(text: &[u8]) -> Option<usize>
    ensures { result ≡ position ends_name text.now }
{
    text.iter()
        .position(|byte| is_white(*byte) || *byte == b'=')
}

fn first_space(text: &[u8]) -> Option<usize>
    ensures { result ≡ position is_white text.now }
{
    text.iter().position(|byte| is_white(*byte))
}
