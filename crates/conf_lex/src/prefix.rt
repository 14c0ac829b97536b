ghost use Rattle.std.specs.Prelude.{◌≡◌, ◌==◌, length, option_map};
ghost use Rattle.conf_lex.specs.Piece.{at_line_end, join_at, join_bytes, goes_on};
ghost use Rattle.conf_lex.specs.Reading.{run_of, rest_of_line};
ghost use Rattle.conf_lex.specs.Lexing.{before_nul, is_bracket_end, is_escape};

use pam_base::is_white;

/// Whether all of the text has been read.
pub fn at_end(text: &[u8]) -> bool
    ensures { result ≡ (length (before_nul text.now) == 0) }
{
    matches!(text, [] | [0, ..])
}

/// The length in bytes of the join at the beginning of the text, if there is one.
pub fn join_length(text: &[u8]) -> Option<usize>
    ensures { result ≡ option_map (λ j. length (join_bytes j)) (join_at (before_nul text.now)) }
{
    match text {
        [b'\\', b'\n', ..] => Some(2),
        [b'\\', b'\r', b'\n', ..] => Some(3),
        _ => None,
    }
}

pub fn at_line_end(text: &[u8]) -> bool
    ensures { result ≡ at_line_end (before_nul text.now) }
{
    matches!(text, [] | [b'\n' | 0, ..])
}

pub fn goes_on(text: &[u8]) -> bool
    ensures { result ≡ goes_on (before_nul text.now) }
{
    match text {
        [] | [b'#' | b'\n' | 0, ..] => false,
        [byte, ..] => !is_white(*byte) && join_length(text).is_none(),
    }
}

/// The length in bytes of the plain token at the beginning of the text.
pub fn run_length(text: &[u8]) -> usize
    ensures { result ≡ length (run_of (before_nul text.now)) }
{
    let mut rest = text;
    while goes_on(rest) {
        rest = &rest[1..];
    }
    text.len() - rest.len()
}

/// Whether a bracket ends here: by its `]`, or still open at the end of the line.
pub fn is_bracket_end(text: &[u8]) -> bool
    ensures { result ≡ is_bracket_end (before_nul text.now) }
{
    matches!(text, [] | [b']' | b'\n' | 0, ..])
}

pub fn is_escape(text: &[u8]) -> bool
    ensures { result ≡ is_escape (before_nul text.now) }
{
    matches!(text, [b'\\', b']', ..])
}

/// How many bytes come before the end of the physical line.
pub fn line_length(text: &[u8]) -> usize
    ensures { result ≡ length (rest_of_line (before_nul text.now)) }
{
    let mut rest = text;
    while !at_line_end(rest) {
        rest = &rest[1..];
    }
    text.len() - rest.len()
}
