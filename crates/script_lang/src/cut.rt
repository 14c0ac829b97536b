ghost use Rattle.std.specs.Prelude.{◌≡◌, option_map};
ghost use Rattle.std.specs.List.{list_any};
ghost use Rattle.pam_base.specs.Words.{words_of};
ghost use Rattle.script_lang.specs.Place.{is_text};
ghost use Rattle.script_lang.specs.Cut.{first_word, word_at, wanted_of, most_of, has_its_words, IsPast};

use crate::place::Position;
use pam_base::first_place;

/// The word of a line's command, empty if the line begins with a space.
pub(crate) fn first_word(line: &[u8]) -> &[u8]
    ensures { result.now ≡ first_word line.now }
{
    match first_place(b' ', line) {
        Some(end) => &line[..end],
        None => line,
    }
}

/// The word after n others in the line; None if and only if the line has no more words.
pub(crate) fn word_at(place: Position, before: usize, line: &[u8]) -> Option<&[u8]>
    ensures { option_map (λ word. word.now) result ≡ word_at place before (words_of line.now) }
{
    let rest = after_words(before, line)?;
    if place.is_text() {
        Some(rest)
    } else {
        Some(first_word(rest))
    }
}

/// Whether the line has as many words after its command as these places require.
pub(crate) fn has_its_words(places: [Position; 3], line: &[u8]) -> bool
    ensures { result ≡ has_its_words places (words_of line.now) }
{
    after_words(wanted(places), line).is_some()
        && (has_text(places) || after_words(most(places) + 1, line).is_none())
}

// What follows n words and the space after each; None if and only if the line has no more words.
fn after_words(count: usize, line: &[u8]) -> Option<&[u8]>
    ensures { IsPast (option_map (λ rest. rest.now) result) count (words_of line.now) }
{
    let mut rest = line;
    for _ in 0..count {
        rest = after_word(rest)?;
    }
    Some(rest)
}

fn after_word(line: &[u8]) -> Option<&[u8]>
    ensures { IsPast (option_map (λ rest. rest.now) result) 1 (words_of line.now) }
{
    let end = first_place(b' ', line)?;
    Some(&line[end + 1..])
}

// How many of the places require a word.
fn wanted(places: [Position; 3]) -> usize
    ensures { result ≡ wanted_of places }
{
    places.iter().filter(|place| place.is_wanted()).count()
}

// How many of the places allow a word.
fn most(places: [Position; 3]) -> usize
    ensures { result ≡ most_of places }
{
    places.iter().filter(|place| place.form().is_some()).count()
}

fn has_text(places: [Position; 3]) -> bool
    ensures { result ≡ list_any is_text places }
{
    places.iter().any(|place| place.is_text())
}
