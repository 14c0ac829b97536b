ghost use Rattle.std.specs.Prelude.{◌≡◌, ℕ, List, true};
ghost use Rattle.record_reader.specs.Laws.{NoTurnYet, StopsAtOnce, FaultIsTurn, EndIsTurn, ItemIsTurn, RestIsTurn, TurnsGoOn, TurnsAreRun};
ghost use Rattle.pam_base.specs.Lines.{lines_of};
ghost use Rattle.record_reader.specs.Looked.{looked};

use crate::stepping::Stepping;

// The laws of this crate, for the proofs of its callers.

/// Before the first byte there was no turn yet; memory may also run out there.
pub fn first_turn<R: Stepping>()
    ensures none_yet { (setting : R.Setting) → NoTurnYet R.looked (R.step setting)
        (R.fails setting) }
    ensures no_memory { (setting : R.Setting) → StopsAtOnce R.looked (R.step setting)
        (R.fails setting) }
{}

/// If a source failed or has ended, and no item was found, that is the last turn.
pub fn nothing_found_is_a_turn<R: Stepping>()
    ensures fault { (setting : R.Setting) → FaultIsTurn R.looked R.refuses (R.step setting)
        (R.fails setting) }
    ensures end { (setting : R.Setting) → EndIsTurn R.looked R.refuses (R.step setting)
        (R.fails setting) }
{
    R::cuts();
}

/// An item that was found and served is a turn; without its terminator it is the last one.
pub fn found_item_is_a_turn<R: Stepping>()
    ensures item { (setting : R.Setting) → ItemIsTurn R.looked R.refuses (R.step setting)
        (R.fails setting) }
    ensures rest { (setting : R.Setting) → RestIsTurn R.looked R.refuses (R.step setting)
        (R.fails setting) }
{
    R::keeps();
}

/// Turns followed by turns are turns.
pub fn turns_go_on<R: Stepping>()
    ensures { (setting : R.Setting) → TurnsGoOn R.looked (R.step setting) (R.fails setting) }
{}

/// Turns from the first byte to the last are a run over the whole stream.
pub fn turns_are_a_run<R: Stepping>()
    ensures { (setting : R.Setting) → TurnsAreRun R.looked (R.step setting) (R.fails setting) }
{
    R::cuts();
    R::keeps();
}

/// If the input ends after some bytes, all their lines are applied or refused. This is a law about
/// the definitions: its contract states it, for those who call it in a proof.
pub fn whole_input_is_looked_at()
    ensures { (n : ℕ) (bytes : List ℕ) → looked n bytes true ≡ lines_of bytes }
{}
