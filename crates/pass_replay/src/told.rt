ghost use Rattle.std.specs.Prelude.{◌≡◌, ◌≤◌, ◌+◌, ◌-◌, ◌∷◌, [], Some, IfSome, IfNone, drop, length, slice_get};
ghost use Rattle.handler_chain.specs.Retell.{is_of};
ghost use Rattle.handler_chain.specs.Seen.{seen_of};
ghost use Rattle.pass_replay.specs.Told.{lines_before, visits_in};

use control_words::{Rule, module_name};
use handler_chain::RecordedLine;

/// The index, from 0, of the first recorded line of a rule; the number of recorded lines if there
/// is none.
pub fn first_visit(told: &[Option<RecordedLine>]) -> usize
    ensures { result ≡ lines_before 0 told.now }
{
    first_left(told, 0)
}

/// The index of the first line of a rule among the recorded lines from one on; the number of
/// recorded lines if there is none.
pub fn first_left(told: &[Option<RecordedLine>], from: usize) -> usize
    ensures same { visits_in (drop result told.now) ≡ visits_in (drop from told.now) }
    ensures within { result ≤ length told.now }
    ensures left { result ≡ lines_before
        (length (visits_in told.now) - length (visits_in (drop result told.now))) told.now }
{
    match next_seen(told, from) {
        Some((at, _)) => at,
        None => told.len(),
    }
}

/// The first line of a rule among the recorded lines from one on, with its index.
pub fn next_seen(told: &[Option<RecordedLine>], from: usize) -> Option<(usize, &RecordedLine)>
    ensures some { IfSome result (λ found. visits_in (drop from told.now)
        ≡ seen_of found.1.now ∷ visits_in (drop (found.0 + 1) told.now)) }
    ensures at { IfSome result (λ found. slice_get told.now found.0 ≡ Some (Some found.1.now)) }
    ensures none { IfNone result (visits_in (drop from told.now) ≡ []) }
{
    let mut next = from;
    while let Some(line) = told.get(next) {
        if let Some(seen) = line {
            return Some((next, seen));
        }
        next += 1;
    }
    None
}

/// Whether a recorded line is that of a rule with this rule number.
pub fn is_of(seen: &RecordedLine, rule: &Rule, place: usize) -> bool
    ensures { result ≡ is_of (seen_of seen.now) rule.now place }
{
    seen.place == place as u64 && seen.name.bytes() == module_name(rule.path.bytes())
}
