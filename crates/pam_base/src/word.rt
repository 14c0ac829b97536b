ghost use Rattle.std.specs.Prelude.{◌≡◌};
ghost use Rattle.std.specs.List.{find};
ghost use Rattle.std.specs.Str.{bytes_eq, str_eq_ignore_ascii_case};

/// A value that a configuration, a script or a report writes as one word.
pub trait Word: Copy {
    ghost use Rattle.std.specs.Prelude.{ℕ, List};

    ghost spelling: { Self → List ℕ };

    /// The word, as it is printed.
    fn word(self) -> &'static str
        ensures { result.now ≡ spelling self };
}

/// The first of these values with this word; None if none has it.
pub fn find_word<T: Word>(all: &[T], word: &[u8]) -> Option<T>
    ensures { result ≡ find (λ x. bytes_eq (T.spelling x) word.now) all.now }
{
    all.iter().copied().find(|x| x.word().as_bytes() == word)
}

/// The first of these values with this word, in upper or lower case; None if none has it.
pub fn find_any_case<T: Word>(all: &[T], word: &[u8]) -> Option<T>
    ensures { result ≡ find (λ x. str_eq_ignore_ascii_case word.now (T.spelling x)) all.now }
{
    all.iter()
        .copied()
        .find(|x| word.eq_ignore_ascii_case(x.word().as_bytes()))
}
