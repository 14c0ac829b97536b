ghost use Rattle.std.specs.Prelude.{◌≡◌, drop, option_map};
ghost use Rattle.std.specs.List.{find};
ghost use Rattle.pam_base.specs.Lines.{lines_of};
ghost use Rattle.pam_base.specs.Parts.{parts_of};
ghost use Rattle.who_calls.specs.Status.{are_one, are_root, first_number, ids_in, ids_of, is_line_of, three};

use pam_base::{Lines, Parts, number_in};

/// The real, the effective and the saved ID of a process, as a user or as a group.
#[derive(Clone, Copy, Debug)]
pub struct Ids {
    pub real: u32,
    pub effective: u32,
    pub saved: u32,
}

impl Ids {
    /// Whether they are the same.
    pub fn are_one(&self) -> bool
        ensures { result ≡ are_one self.now }
    {
        self.real == self.effective && self.real == self.saved
    }

    /// Whether all are root's.
    pub fn are_root(&self) -> bool
        ensures { result ≡ are_root self.now }
    {
        self.real == 0 && self.effective == 0 && self.saved == 0
    }
}

/// The IDs on the first line with this name, such as `Uid:`, in the text of `/proc/self/status` (`proc(5)`); None if there is
/// no such line, or it doesn't have three numbers.
pub fn ids_in(status: &[u8], name: &[u8]) -> Option<Ids>
    ensures { result ≡ ids_in status.now name.now }
{
    ids_of(line_in(status, name)?)
}

// The first line with this name.
fn line_in<'a>(status: &'a [u8], name: &[u8]) -> Option<&'a [u8]>
    ensures { option_map (λ l. l.now) result ≡ find (is_line_of name.now) (lines_of status.now) }
{
    let mut lines = Lines::new(status);
    while let Some(line) = lines.next_line() {
        if is_line_of(name, line) {
            return Some(line);
        }
    }
    None
}

// Whether a line begins with this name and a tab.
fn is_line_of(name: &[u8], line: &[u8]) -> bool
    ensures { result ≡ is_line_of name.now line.now }
{
    match Parts::new(b'\t', line).next_part() {
        Some(part) => part == name,
        None => false,
    }
}

// The three numbers after a line's name.
fn ids_of(line: &[u8]) -> Option<Ids>
    ensures { result ≡ ids_of (parts_of 9 line.now) }
{
    let mut parts = Parts::new(b'\t', line);
    let _name = parts.next_part();
    let real = next_number(&mut parts);
    let effective = next_number(&mut parts);
    let saved = next_number(&mut parts);
    three(real, effective, saved)
}

fn next_number(parts: &mut Parts<'_>) -> Option<u32>
    ensures number { result ≡ first_number parts.old }
    ensures left { parts.new ≡ drop 1 parts.old }
{
    match parts.next_part() {
        Some(part) => number_in(part),
        None => None,
    }
}

fn three(real: Option<u32>, effective: Option<u32>, saved: Option<u32>) -> Option<Ids>
    ensures { result ≡ three real effective saved }
{
    match (real, effective, saved) {
        (Some(real), Some(effective), Some(saved)) => Some(Ids {
            real,
            effective,
            saved,
        }),
        _ => None,
    }
}
