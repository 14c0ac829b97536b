ghost use Rattle.std.specs.Prelude.{◌≡◌, ◌≢◌, ◌<◌, ◌^◌, ℕ, true, false, List, [], Option, Some, unwrap_or};
ghost use Rattle.std.specs.List.{AllByRecursion};
ghost use Rattle.module_acts.specs.pam_room.specs.Call.{PlainCall};
ghost use Rattle.module_acts.specs.pam_room.specs.Module.{NamedData, SeenRoom, Sight};
ghost use Rattle.mod_tally.specs.declared.tally.Failure.{Failure};
ghost use Rattle.mod_tally.specs.Source.{spelled, unspelled};
ghost use Rattle.mod_tally.specs.Tally.{IsFailure, counts, failures_of, latest, tally_text};
ghost use Rattle.item_store.specs.Items.{ItemTexts};
ghost use Rattle.mod_tally.specs.Faillock.{faillock_plays, new_failure};
ghost use Rattle.mod_tally.specs.Recorded.{Deed, Does, Follow, IsAmong, IsWith, Served, deeds_of, is_cleared, recorded_by, failures_on_file, failures_by};

/// Failures and sources that are written are read back as themselves, what is read can be written,
/// no source has two spellings, and what the module records can be written.
pub fn written_tallies_are_read()
    ensures tally { (failures : List Failure) → AllByRecursion IsFailure failures →
        failures_of (tally_text failures) ≡ Some failures }
    ensures read { (text : List ℕ) (failures : List Failure) → failures_of text ≡ Some failures →
        AllByRecursion IsFailure failures }
    ensures spelling { (word source : List ℕ) → unspelled word ≡ Some source →
        (spelled source ≡ word) × AllByRecursion (λ b. b < 256) source }
    ensures source { (source : List ℕ) → AllByRecursion (λ b. b < 256) source →
        unspelled (spelled source) ≡ Some source }
    // A failure that is recorded can be written: with a time of at most 13 digits, and of items of
    // bytes with a service.
    ensures new { (moment : ℕ) (items : ItemTexts) → moment < 10 ^ 13 →
        AllByRecursion (λ b. b < 256) (unwrap_or items.rhost []) →
        AllByRecursion (λ b. b < 256) (unwrap_or items.tty []) →
        AllByRecursion (λ b. b < 256) (unwrap_or items.service []) →
        unwrap_or items.service [] ≢ [] → IsFailure (new_failure moment items) }
{}

/// What calls of pam_faillock(8) do to a user's file. Each leaves it unchanged, records a failure,
/// or clears the failures. After a list of calls, which may be from many transactions, if nothing
/// else changed the file, it has those of the recorded failures that count: a failure stays in it
/// unless the failures were cleared, or it doesn't count against the latest one recorded.
pub fn recorded_failures_are_kept()
    ensures one { (path : List ℕ) (call : PlainCall) (room : SeenRoom) (held : List NamedData)
        (sight : Sight) →
        (deed : Deed) × Does path call sight (faillock_plays call room held sight) deed }
    ensures all { (path : List ℕ) (interval : ℕ) (calls : List Served)
        (before after : Option (List ℕ)) (failures : List Failure) →
        Follow path before calls after → AllByRecursion (IsWith interval) (deeds_of calls) →
        failures_on_file before ≡ Some failures → failures_on_file after
        ≡ Some (failures_by interval (deeds_of calls) failures) }
    ensures kept { (interval : ℕ) (deeds : List Deed) (failure : Failure)
        (failures : List Failure) →
        IsAmong failure failures → is_cleared deeds ≡ false →
        counts interval (latest (recorded_by deeds failures)) failure ≡ true →
        IsAmong failure (failures_by interval deeds failures) }
{}
