ghost use Rattle.std.specs.Prelude.{◌≡◌, drop, slice_get, option_map};
ghost use Rattle.pam_base.specs.Parts.{parts_of};

use crate::bytes::first_place;
use std::marker::Model;

/// Takes the parts of a text between its separators one by one. Contracts see the parts that are left. An empty text
/// has one empty part.
#[derive(Drop)]
pub struct Parts<'a> {
    separator: u8,
    rest: &'a [u8],
    // whether the last part was taken
    ended: bool,
}

impl<'a> Model for Parts<'a> {
    ghost use Rattle.std.specs.Prelude.{ℕ, List, [], if◌then◌else◌};
    ghost use Rattle.pam_base.specs.Parts.{parts_of};

    ghost Value = { List (List ℕ) };

    ghost view = { λ p. if p.ended then [] else parts_of p.separator p.rest.now };
}

impl<'a> Parts<'a> {
    pub fn new(separator: u8, text: &'a [u8]) -> Self
        ensures { result ≡ parts_of separator text.now }
    {
        Parts {
            separator,
            rest: text,
            ended: false,
        }
    }

    /// The next part; None if and only if none is left.
    pub fn next_part(&mut self) -> Option<&'a [u8]>
        ensures part { option_map (λ p. p.now) result ≡ slice_get self.old 0 }
        ensures left { self.new ≡ drop 1 self.old }
    {
        if self.ended {
            return None;
        }
        let rest = self.rest;
        match first_place(self.separator, rest) {
            Some(n) => {
                self.rest = &rest[n + 1..];
                Some(&rest[..n])
            }
            None => {
                self.ended = true;
                Some(rest)
            }
        }
    }
}
