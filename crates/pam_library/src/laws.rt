ghost use Rattle.std.specs.Prelude.{◌≡◌, ℕ, List, [], ◌++◌, map, length, nat_eq, false, Option, Some};
ghost use Rattle.pam_base.specs.declared.code.Code.{Code};
ghost use Rattle.pam_base.specs.declared.call.AppCall.{AppCall};
ghost use Rattle.pam_base.specs.declared.call.Step.{Step};
ghost use Rattle.pam_outside.specs.Files.{File, VaultState};
ghost use Rattle.pam_outside.specs.Time.{time_of};
ghost use Rattle.pam_handle.specs.pam_room.specs.State.{PlainWorld};
ghost use Rattle.pam_library.specs.Plays.{AreAskedAt, AskedLine, LinesLead, StepAsks, visits_of};
ghost use Rattle.pam_library.specs.Step.{stepped};
ghost use Rattle.conv_port.specs.Conv.{ConvState};
ghost use Rattle.data_cleanup.specs.Ledger.{AreNumbered, IsSound as LedgerIsSound, PlainLedger};
ghost use Rattle.data_cleanup.specs.Cleanup.{Notes};
ghost use Rattle.data_cleanup.specs.Due.{Event};
ghost use Rattle.data_cleanup.specs.Modelled.{Lists, ModelsEvents};
ghost use Rattle.data_cleanup.specs.Moves.{Moves};
ghost use Rattle.pam_handle.specs.pam_room.specs.Module.{Player};
ghost use Rattle.pam_library.specs.Slots.{PlainSlot, closed, data_in, handle_limit, lists_of, slot_at, with_slot};
ghost use Rattle.pam_library.specs.Sound.{IsAtPlace, IsSound};
ghost use Rattle.pam_library.specs.AnyWorld.{SpendsAt, end_at};
ghost use Rattle.pam_library.specs.Calls.{MoveOn, Moved, events_of, last_ledger, last_lists};
ghost use Rattle.pam_library.specs.Alike.{AreAlike, AreInOrder, ComeToSame, NoCallFails};
ghost use Rattle.pam_library.specs.SideBySide.{Met, alone, outcomes_alone, outcomes_on, own_steps, slots_after};

// The laws of this crate, for the proofs of its callers.

/// A call in one slot keeps all slots and the cleanup log sound; it adds its sets to the events
/// and, if it is an end, that end.
pub fn one_place_moves()
    ensures sound { (note : Notes) (names : List (List ℕ)) (modules : ℕ) (slots : List PlainSlot)
        (number : ℕ) (old new : PlainSlot) (call : AppCall) (before after : PlainLedger) →
        IsSound names modules slots before → slot_at slots number ≡ Some old →
        IsAtPlace names number new →
        SpendsAt note modules (Some old) call (data_in number (Some old)) before
        (data_in number (Some new)) after → AreNumbered 0 after.births →
        IsSound names modules (with_slot slots number new) after }
    ensures moves { (note : Notes) (names : List (List ℕ)) (modules : ℕ) (slots : List PlainSlot)
        (number : ℕ) (old new : PlainSlot) (call : AppCall) (before after : PlainLedger) →
        IsSound names modules slots before → slot_at slots number ≡ Some old →
        IsAtPlace names number new →
        SpendsAt note modules (Some old) call (data_in number (Some old)) before
        (data_in number (Some new)) after → AreNumbered 0 after.births →
        Moves note handle_limit (end_at (Some old) number call) before (lists_of slots) after
        (lists_of (with_slot slots number new)) }
{
    data_cleanup::laws::nothing_grows();
    data_cleanup::due_laws::growth_holds();
    data_cleanup::due_laws::growth_moves();
    data_cleanup::due_laws::end_holds();
    data_cleanup::due_laws::end_moves();
    data_cleanup::due_laws::nothing_moves();
}

/// Sixteen closed slots and a cleanup log without sets are sound, and mean no events.
pub fn closed_places_have_no_events()
    ensures sound { (names : List (List ℕ)) (modules : ℕ) (convs : List ConvState) →
        length convs ≡ 16 →
        IsSound names modules (map closed convs) (record { births = []; filed = [] }) }
    ensures stand { (note : Notes) (convs : List ConvState) →
        ModelsEvents note handle_limit (record { births = []; filed = [] })
        (lists_of (map closed convs)) [] }
{
    data_cleanup::laws::nothing_grows();
    data_cleanup::due_laws::growth_holds();
    data_cleanup::due_laws::nothing_is_held();
    data_cleanup::due_laws::nothing_moves();
    data_cleanup::due_laws::nothing_has_no_events();
}

/// After a list of calls, each of which continued from the one before, the events are those before it and then the sets
/// and the end of each call, in order.
pub fn calls_add_their_events()
    ensures { (note : Notes) (limit : ℕ) (calls : List Moved) (ledger : PlainLedger) (lists : Lists)
        (events : List Event) →
        ModelsEvents note limit ledger lists events → MoveOn note limit ledger lists calls →
        ModelsEvents note limit (last_ledger ledger calls) (last_lists lists calls)
        (events ++ events_of ledger calls) }
{}

/// Whatever steps a run has: the content of one slot after them, and the outcomes of the steps in
/// that slot, are the results of these steps alone, each from the world as it was before it.
pub fn places_go_alone()
    ensures slot { (players : List Player) (number_of : Code → ℕ → ℕ) (number : ℕ)
        (steps : List Met) (slots : List PlainSlot) (slot : PlainSlot) →
        slot_at slots number ≡ Some slot →
        slot_at (slots_after players number_of slots steps) number
        ≡ Some (alone players number_of number slot (own_steps number steps)) }
    ensures outcomes { (players : List Player) (number_of : Code → ℕ → ℕ) (number : ℕ)
        (steps : List Met) (slots : List PlainSlot) (slot : PlainSlot) →
        slot_at slots number ≡ Some slot →
        outcomes_on players number_of number slots steps
        ≡ outcomes_alone players number_of number slot (own_steps number steps) }
{}

/// Slots and a cleanup log between two calls are in order; and so are closed slots and a log without sets.
pub fn sound_places_are_in_order()
    ensures sound { (names : List (List ℕ)) (modules : ℕ) (slots : List PlainSlot)
        (ledger : PlainLedger) →
        IsSound names modules slots ledger → AreNumbered 0 ledger.births →
        LedgerIsSound ledger.births ledger.filed → AreInOrder slots ledger }
    ensures closed { (convs : List ConvState) →
        AreInOrder (map closed convs) (record { births = []; filed = [] }) }
{}

/// If a file store has no planned failure, no access is planned to fail.
pub fn no_call_fails_where_none_is_listed()
    ensures { (vault : VaultState) → vault.fails ≡ [] → NoCallFails vault }
{}

/// The result of a call on one number doesn't depend on the others. In two states that are alike for a number, a call
/// on it has the same result and leaves two that are alike; so does, in one of them, a call on another number that
/// changes no file. This holds whatever the modules do.
pub fn calls_keep_to_themselves()
    ensures own { (players : List Player) (number_of : Code → ℕ → ℕ) (step : Step)
        (slots others : List PlainSlot) (w v : PlainWorld) →
        AreAlike step.number slots w others v →
        ComeToSame step.number (stepped players number_of slots w step)
        (stepped players number_of others v step) }
    ensures other { (players : List Player) (number_of : Code → ℕ → ℕ) (number : ℕ) (step : Step)
        (slots others : List PlainSlot) (w v : PlainWorld) →
        nat_eq step.number number ≡ false → AreAlike number slots w others v →
        (stepped players number_of slots w step).world.vault.files ≡ w.vault.files →
        AreAlike number (stepped players number_of slots w step).slots
        (stepped players number_of slots w step).world others v }
{}

/// For each step, what the modules of the lines that it runs get (`asks`): each line belongs to the
/// stack of the step's function, and its module gets the arguments of its rule, and the room and
/// the world as the line before left them. These are the lines that are recorded (`visits`). All
/// modules see the time at which the step began (`moments`). Their definitions change files, one
/// after another, and nothing else does (`step`). Two lists of lines, one run after the other, are
/// one list of lines (`together`).
pub fn steps_change_files_by_plays()
    ensures asks { (players : List Player) (number_of : Code → ℕ → ℕ) (slots : List PlainSlot)
        (w : PlainWorld) (step : Step) →
        (asked : List AskedLine) × StepAsks players number_of slots w step asked }
    ensures visits { (players : List Player) (number_of : Code → ℕ → ℕ) (slots : List PlainSlot)
        (w : PlainWorld) (step : Step) (asked : List AskedLine) →
        StepAsks players number_of slots w step asked →
        visits_of asked ≡ (stepped players number_of slots w step).outcome.trail }
    ensures moments { (players : List Player) (number_of : Code → ℕ → ℕ) (slots : List PlainSlot)
        (w : PlainWorld) (step : Step) (asked : List AskedLine) →
        StepAsks players number_of slots w step asked → AreAskedAt (time_of w.clock) asked }
    ensures step { (players : List Player) (number_of : Code → ℕ → ℕ) (slots : List PlainSlot)
        (w : PlainWorld) (step : Step) (asked : List AskedLine) →
        StepAsks players number_of slots w step asked →
        LinesLead players w.vault.files asked
        (stepped players number_of slots w step).world.vault.files }
    ensures together { (players : List Player) (first middle last : List File)
        (some others : List AskedLine) →
        LinesLead players first some middle → LinesLead players middle others last →
        LinesLead players first (some ++ others) last }
{
    pam_handle::laws::ends_leave_it();
}
