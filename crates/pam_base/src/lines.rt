ghost use Rattle.std.specs.Prelude.{◌≡◌, drop, slice_get, option_map};
ghost use Rattle.pam_base.specs.Lines.{lines_of};

use crate::bytes::first_place;
use std::marker::Model;

/// Takes the lines of a text one by one, without their newlines. The last line may lack its newline; an
/// empty text has no lines. Contracts see the lines that are left.
#[derive(Drop)]
pub struct Lines<'a> {
    rest: &'a [u8],
}

impl<'a> Model for Lines<'a> {
    ghost use Rattle.std.specs.Prelude.{ℕ, List};
    ghost use Rattle.pam_base.specs.Lines.{lines_of};

    ghost Value = { List (List ℕ) };

    ghost view = { λ l. lines_of l.rest.now };
}

impl<'a> Lines<'a> {
    pub fn new(text: &'a [u8]) -> Self
        ensures { result ≡ lines_of text.now }
    {
        Lines { rest: text }
    }

    /// The next line; None if and only if none is left.
    pub fn next_line(&mut self) -> Option<&'a [u8]>
        ensures line { option_map (λ l. l.now) result ≡ slice_get self.old 0 }
        ensures left { self.new ≡ drop 1 self.old }
    {
        let rest = self.rest;
        if rest.is_empty() {
            return None;
        }
        match first_place(b'\n', rest) {
            Some(n) => {
                self.rest = &rest[n + 1..];
                Some(&rest[..n])
            }
            None => {
                self.rest = &rest[rest.len()..];
                Some(rest)
            }
        }
    }
}
