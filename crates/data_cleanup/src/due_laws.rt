ghost use Rattle.std.specs.Prelude.{◌≡◌, ◌<◌, ◌+◌, ◌↔◌, ℕ, nat_eq, nat_lt, if◌then◌else◌, false, true, length, List, [], ◌∷◌, ◌++◌, map, reverse};
ghost use Rattle.std.specs.List.{AllByRecursion};
ghost use Rattle.data_cleanup.specs.Datum.{PlainDatum};
ghost use Rattle.data_cleanup.specs.DataList.{PlainDataList};
ghost use Rattle.data_cleanup.specs.Ledger.{AreNumbered, IsOutstanding, IsSound, PlainLedger, is_filed};
ghost use Rattle.data_cleanup.specs.Cleanup.{AwaitCleanup, Notes, data_replace, ledger_after, times};
ghost use Rattle.data_cleanup.specs.Grows.{Grows};
ghost use Rattle.data_cleanup.specs.Tidy.{Tidy};
ghost use Rattle.data_cleanup.specs.Due.{Event, birth, due, ends};
ghost use Rattle.data_cleanup.specs.declared.datum.Birth.{Birth};
ghost use Rattle.data_cleanup.specs.Holding.{births_since, data_held, receipts, replaced_data};
ghost use Rattle.data_cleanup.specs.Modelled.{AreBelow, EachOnce, Lists, ModelsEvents, births_of, clean_list, times_filed, times_held};
ghost use Rattle.data_cleanup.specs.Latest.{AreLatest};
ghost use Rattle.data_cleanup.specs.Kept.{AreHeld};
ghost use Rattle.data_cleanup.specs.Moves.{Moves};

// Each of these is a law about the definitions: its contract states it, for those who call it in a
// proof.

/// Data set in one transaction make due the data that they replace in its list.
pub fn births_make_due()
    ensures { (note : Notes) (events : List Event) (handle : ℕ) (births : List Birth) →
        AllByRecursion (λ (b : Birth). b.handle ≡ handle) births →
        due note (events ++ map birth births)
        ≡ due note events ++ receipts note data_replace (replaced_data
        (data_held handle events) births) }
{}

/// An end makes due the transaction's data, the last name first.
pub fn end_makes_due()
    ensures { (note : Notes) (events : List Event) (handle status : ℕ) →
        due note (events ++ ends handle status ∷ [])
        ≡ due note events ++ receipts note status (reverse (data_held handle events)) }
{}

/// Each record of data set has one cleanup record that is due, or is once in one transaction's
/// list; nothing else has or is.
pub fn each_is_due_once()
    ensures { (note : Notes) (limit : ℕ) (events : List Event) →
        AreNumbered 0 (births_of events) → AreBelow limit events → (id : ℕ) →
        times_filed id (due note events) + times_held limit id (λ (h : ℕ). data_held h events)
        ≡ (if nat_lt id (length (births_of events)) then 1 else 0) }
{}

/// A transaction has no data if and only if none was set since its last end.
pub fn no_data_where_no_births()
    ensures { (handle : ℕ) (events : List Event) →
        (data_held handle events ≡ []) ↔ (births_since handle events ≡ []) }
{}

/// A cleanup log without records, and lists without data, model no events.
pub fn nothing_has_no_events()
    ensures { (note : Notes) (limit : ℕ) →
        ModelsEvents note limit (record { births = []; filed = [] }) (λ (h : ℕ). clean_list h []) [] }
{}

/// If the list of one transaction grows, the records that were added are the next events.
pub fn growth_adds_events()
    ensures { (note : Notes) (modules limit handle : ℕ) (events : List Event)
        (before after : PlainLedger) (lists next : Lists) →
        ModelsEvents note limit before lists events → handle < limit →
        (g : Grows note modules (lists handle) before (next handle) after) →
        ((h : ℕ) → nat_eq h handle ≡ false → next h ≡ lists h) → AreNumbered 0 after.births →
        ModelsEvents note limit after next (events ++ map birth g.added) }
{}

/// If the data of one transaction are cleaned up, the last name first, its end is the next event.
pub fn end_adds_its_event()
    ensures { (note : Notes) (limit handle status : ℕ) (events : List Event)
        (before after : PlainLedger) (lists next : Lists) →
        ModelsEvents note limit before lists events → handle < limit →
        after ≡ ledger_after note status (reverse (lists handle).live) before →
        next handle ≡ clean_list handle [] →
        ((h : ℕ) → nat_eq h handle ≡ false → next h ≡ lists h) →
        ModelsEvents note limit after next (events ++ ends handle status ∷ []) }
{}

/// Growth of one transaction's list adds the events of the new records.
pub fn growth_moves()
    ensures { (note : Notes) (modules limit handle : ℕ) (before after : PlainLedger)
        (lists next : Lists) →
        handle < limit → Grows note modules (lists handle) before (next handle) after →
        ((h : ℕ) → nat_eq h handle ≡ false → next h ≡ lists h) → AreNumbered 0 after.births →
        Moves note limit [] before lists after next }
{}

/// The end of one transaction adds that end.
pub fn end_moves()
    ensures { (note : Notes) (limit handle status : ℕ) (before after : PlainLedger)
        (lists next : Lists) →
        handle < limit → after ≡ ledger_after note status (reverse (lists handle).live) before →
        next handle ≡ clean_list handle [] → ((h : ℕ) → nat_eq h handle ≡ false →
        next h ≡ lists h) →
        Moves note limit (ends handle status ∷ []) before lists after next }
{}

/// What changes no data adds no event.
pub fn nothing_moves()
    ensures { (note : Notes) (limit : ℕ) (before after : PlainLedger) (lists next : Lists) →
        after ≡ before → ((h : ℕ) → next h ≡ lists h) →
        Moves note limit [] before lists after next }
{}

/// The data that a transaction holds after some events are the latest of their names.
pub fn held_data_are_latest()
    ensures { (note : Notes) (limit handle : ℕ) (ledger : PlainLedger) (lists : Lists)
        (events : List Event) →
        ModelsEvents note limit ledger lists events → AreLatest ledger.births (lists handle) }
{}

/// A cleanup log in order stays so when a list grows.
pub fn growth_keeps_tidy()
    ensures { (note : Notes) (modules : ℕ) (old new : PlainDataList) (before after : PlainLedger) →
        Tidy note before → AreLatest before.births old → Grows note modules old before new after →
        IsSound after.births after.filed → AreNumbered 0 after.births → Tidy note after }
{}

/// A cleanup log in order stays so when the data of a list are cleaned up at its end.
pub fn end_keeps_tidy()
    ensures { (note : Notes) (status : ℕ) (list : PlainDataList) (before after : PlainLedger) →
        Tidy note before → AreLatest before.births list →
        after ≡ ledger_after note status (reverse list.live) before →
        IsSound after.births after.filed → Tidy note after }
{}

/// At first nothing is held.
pub fn nothing_is_held()
    ensures { (modules limit : ℕ) →
        AreHeld modules limit (record { births = []; filed = [] }) (λ (h : ℕ). clean_list h []) }
{}

/// Growth of one transaction's list leaves the lists with exactly what has no cleanup record.
pub fn growth_holds()
    ensures { (note : Notes) (modules limit handle : ℕ) (before after : PlainLedger)
        (lists next : Lists) →
        AreHeld modules limit before lists → handle < limit →
        Grows note modules (lists handle) before (next handle) after →
        ((h : ℕ) → nat_eq h handle ≡ false → next h ≡ lists h) → AreNumbered 0 after.births →
        AreHeld modules limit after next }
{}

/// The end of one transaction does the same.
pub fn end_holds()
    ensures { (note : Notes) (modules limit handle status : ℕ) (before after : PlainLedger)
        (lists next : Lists) →
        AreHeld modules limit before lists → handle < limit →
        after ≡ ledger_after note status (reverse (lists handle).live) before →
        next handle ≡ clean_list handle [] →
        ((h : ℕ) → nat_eq h handle ≡ false → next h ≡ lists h) → AreHeld modules limit after next }
{}

/// What a transaction holds awaits its cleanup.
pub fn held_data_await_cleanup()
    ensures { (modules limit handle : ℕ) (ledger : PlainLedger) (lists : Lists) →
        AreHeld modules limit ledger lists → handle < limit →
        AwaitCleanup modules ledger (lists handle).live }
{}

/// Data without a cleanup record are once in the list of one transaction.
pub fn outstanding_are_held()
    ensures { (limit : ℕ) (ledger : PlainLedger) (data_of : ℕ → List PlainDatum) →
        EachOnce limit ledger data_of →
        (id : ℕ) → IsOutstanding ledger id ↔ ((h : ℕ) × (h < limit) × (times id (data_of h) ≡ 1)) }
{}

/// If no transaction has data, each record has its cleanup record.
pub fn all_are_filed()
    ensures { (limit : ℕ) (ledger : PlainLedger) (data_of : ℕ → List PlainDatum) →
        EachOnce limit ledger data_of →
        ((h : ℕ) → h < limit → data_of h ≡ []) → (id : ℕ) → id < length ledger.births →
        is_filed ledger id ≡ true }
{}
