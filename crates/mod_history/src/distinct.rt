ghost use Rattle.std.specs.Prelude.{◌≡◌, IfOk, map};
ghost use Rattle.std.specs.List.Sorted.{IsPermutation, IsSorted};
ghost use Rattle.std.specs.Cmp.Lexicographic.{slice_cmp};
ghost use Rattle.std.specs.Ordering.{nat_cmp};
ghost use Rattle.mod_history.specs.History.{are_distinct, is_first, neighbours_differ};
ghost use Rattle.mod_history.specs.declared.history.Remembered.{Remembered};

use crate::history::Remembered;
use pam_base::{NoMemory, Text, Texts};
use std::alloc::Global;

/// Whether no name occurs twice. The names are sorted, so that each is compared with its neighbours
/// alone.
pub(crate) fn are_distinct(alloc: Global, history: &[Remembered]) -> Result<bool, NoMemory>
    ensures { IfOk result (λ distinct. distinct ≡ are_distinct history.now) }
{
    let names = in_order(names_of(alloc, history)?);
    Ok(neighbours_differ(&names))
}

fn names_of(alloc: Global, history: &[Remembered]) -> Result<Texts, NoMemory>
    ensures { IfOk result (λ names. names ≡ map (λ (r : Remembered). r.name) history.now) }
{
    let mut names = Texts::new(alloc);
    let mut rest = history;
    while let [line, after @ ..] = rest {
        names.push(Text::from_bytes(alloc, line.name.bytes())?)?;
        rest = after;
    }
    Ok(names)
}

// The same texts, in the order of their bytes. Allocates nothing.
fn in_order(texts: Texts) -> Vec<Text>
    ensures same { IsPermutation texts result.items }
    ensures order { IsSorted (slice_cmp nat_cmp) result.items }
{
    let mut texts = texts.into_vec();
    texts.sort_unstable_by(|one, other| one.bytes().cmp(other.bytes()));
    texts
}

// Whether no text is that before it.
fn neighbours_differ(texts: &[Text]) -> bool
    ensures { result ≡ neighbours_differ texts.now }
{
    let mut rest = texts;
    while let [text, after @ ..] = rest {
        if is_first(text.bytes(), after) {
            return false;
        }
        rest = after;
    }
    true
}

fn is_first(text: &[u8], texts: &[Text]) -> bool
    ensures { result ≡ is_first text.now texts.now }
{
    match texts {
        [first, ..] => first.bytes() == text,
        [] => false,
    }
}
