ghost use Rattle.std.specs.Prelude.{◌≡◌};
ghost use Rattle.stack_ways.specs.LineCodes.{counts_in, flag_at, possible_in};

use pam_base::Code;

/// What is assumed of a line. Each list has an element for each return code, in the order of their
/// numbers.
#[derive(Clone, Copy, Debug)]
pub struct LineCodes {
    /// Whether the line may return the code. INCOMPLETE isn't one: with it no run has ended.
    pub may: [bool; 32],
    /// Whether the line counts, where it returns the code.
    pub counts: [bool; 32],
}

/// Whether the line with this rule number may return a code.
pub fn may_return(assumed: &[LineCodes], place: usize, code: Code) -> bool
    ensures { result ≡ possible_in assumed.now place code }
{
    match assumed.get(place.saturating_sub(1)) {
        Some(line) => flag(&line.may, code),
        None => false,
    }
}

/// Whether the line with this rule number counts, where it returns a code.
pub fn line_counts(assumed: &[LineCodes], place: usize, code: Code) -> bool
    ensures { result ≡ counts_in assumed.now place code }
{
    match assumed.get(place.saturating_sub(1)) {
        Some(line) => flag(&line.counts, code),
        None => false,
    }
}

fn flag(flags: &[bool; 32], code: Code) -> bool
    ensures { result ≡ flag_at flags.now code }
{
    flags[code as usize]
}
