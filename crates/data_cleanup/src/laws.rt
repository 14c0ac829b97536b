ghost use Rattle.std.specs.Prelude.{◌≡◌, ◌<◌, ℕ, List, [], ◌∷◌, ◌++◌, length, reverse};
ghost use Rattle.data_cleanup.specs.Datum.{PlainDatum};
ghost use Rattle.data_cleanup.specs.DataList.{PlainDataList, birth_of, hold};
ghost use Rattle.data_cleanup.specs.Ledger.{AreNumbered, IsSound, PlainLedger};
ghost use Rattle.data_cleanup.specs.Cleanup.{AwaitCleanup, AwaitsCleanup, IsCleaningUp, Notes, ledger_after, swept_ledger, swept_list};
ghost use Rattle.data_cleanup.specs.Sets.{Sets};
ghost use Rattle.data_cleanup.specs.Grows.{Grows};
ghost use Rattle.data_cleanup.specs.declared.receipt.Receipt.{Receipt};

use crate::ledger::Ledger;

// The laws of this crate, for the proofs of its callers.

/// Every cleanup log is sound: its sets and cleanup records fit together, and its sets are numbered in order.
pub fn ledger_is_sound(ledger: &Ledger)
    ensures sound { IsSound ledger.now.births ledger.now.filed }
    ensures numbered { AreNumbered 0 ledger.now.births }
{
    ledger.sound();
}

/// Growth is transitive.
pub fn growth_is_transitive()
    ensures { (note : Notes) (modules : ℕ) (x y z : PlainDataList) (a b c : PlainLedger) →
        Grows note modules x a y b → Grows note modules y b z c → Grows note modules x a z c }
{}

/// If no replaced data are left, a call that changes nothing is growth.
pub fn nothing_grows()
    ensures { (note : Notes) (modules : ℕ) (list : PlainDataList) (ledger : PlainLedger) →
        list.gone ≡ [] → Grows note modules list ledger list ledger }
{}

/// Sets followed by more sets are sets.
pub fn setting_is_transitive()
    ensures { (owner : ℕ) (x y z : PlainDataList) (a b c : PlainLedger) →
        Sets owner x a y b → Sets owner y b z c → Sets owner x a z c }
{}

/// Setting nothing changes nothing.
pub fn nothing_sets()
    ensures { (owner : ℕ) (list : PlainDataList) (ledger : PlainLedger) →
        Sets owner list ledger list ledger }
{}

/// One call of `DataList::set` is a list of sets.
pub fn one_birth_sets()
    ensures { (owner : ℕ) (old new : PlainDataList) (before after : PlainLedger)
        (name payload : List ℕ) →
        new ≡ hold old (birth_of (length before.births) old.handle owner name payload) →
        after ≡ record before {
          births = before.births
              ++ birth_of (length before.births) old.handle owner name payload ∷ [];
        } →
        Sets owner old before new after }
{}

/// Data that were set, followed by the sweep of those that they replaced, are growth.
pub fn swept_setting_grows()
    ensures { (note : Notes) (modules owner : ℕ) (old : PlainDataList) (before : PlainLedger)
        (new : PlainDataList) (after : PlainLedger) →
        AreNumbered 0 after.births → owner < modules → old.gone ≡ [] →
        Sets owner old before new after →
        Grows note modules old before (swept_list new) (swept_ledger note new after) }
{}

/// Data that were set wait for their cleanup, and so do those that they replaced.
pub fn set_data_await_cleanup()
    ensures { (modules owner : ℕ) (old : PlainDataList) (before : PlainLedger) (new : PlainDataList)
        (after : PlainLedger) →
        IsSound before.births before.filed → AreNumbered 0 after.births → owner < modules →
        AwaitCleanup modules before (old.gone ++ old.live) → Sets owner old before new after →
        AwaitCleanup modules after (new.gone ++ new.live) }
{}

/// The state before the first of some data is cleaned up.
pub fn cleanup_begins()
    ensures { (note : Notes) (status : ℕ) (ledger : PlainLedger) (all : List PlainDatum) →
        IsCleaningUp note status ledger all ledger all }
{}

/// The next data get their cleanup record.
pub fn cleanup_goes_on()
    ensures { (note : Notes) (status : ℕ) (before : PlainLedger) (all : List PlainDatum)
        (now next : PlainLedger)
        (left rest : List PlainDatum) (d : PlainDatum) (receipt : Receipt) →
        IsCleaningUp note status before all now left → left ≡ d ∷ rest →
        receipt ≡ record { id = d.id; status = status; note = note d.owner d.payload status } →
        next ≡ record now {
          filed = now.filed ++ record {
            receipt = receipt;
            mark = length
                now.births;
          } ∷ [];
        } →
        IsCleaningUp note status before all next rest }
{}

/// Once none is left, all are cleaned up.
pub fn cleanup_ends()
    ensures { (note : Notes) (status : ℕ) (before : PlainLedger) (all : List PlainDatum)
        (now : PlainLedger) (left : List PlainDatum) →
        IsCleaningUp note status before all now left → left ≡ [] →
        now ≡ ledger_after note status all before }
{}

/// The first of some data that wait for their cleanup waits for it, and once it has its record the others still do.
pub fn next_awaits_cleanup()
    ensures next { (modules : ℕ) (ledger : PlainLedger) (all rest : List PlainDatum)
        (d : PlainDatum) →
        AwaitCleanup modules ledger all → all ≡ d ∷ rest → AwaitsCleanup modules ledger d }
    ensures others { (modules : ℕ) (ledger next : PlainLedger) (all rest : List PlainDatum)
        (d : PlainDatum) (receipt : Receipt) →
        AwaitCleanup modules ledger all → all ≡ d ∷ rest → receipt.id ≡ d.id →
        next ≡ record ledger {
          filed = ledger.filed
              ++ record { receipt = receipt; mark = length ledger.births } ∷ [];
        } →
        AwaitCleanup modules next rest }
{}

/// Whether data wait for their cleanup doesn't depend on their order; in the other order the last comes first.
pub fn reversed_await_cleanup()
    ensures reversed { (modules : ℕ) (ledger : PlainLedger) (all : List PlainDatum) →
        AwaitCleanup modules ledger all → AwaitCleanup modules ledger (reverse all) }
    ensures newest { (all rest : List PlainDatum) (d : PlainDatum) →
        all ≡ rest ++ d ∷ [] → reverse all ≡ d ∷ reverse rest }
{}
