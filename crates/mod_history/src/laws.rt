//! What the history of passwords achieves, stated independently of the code.
ghost use Rattle.std.specs.Prelude.{◌≡◌, ◌<◌, ℕ, List, Option, Some, true};
ghost use Rattle.std.specs.List.{AllByRecursion};
ghost use Rattle.pam_room.specs.Call.{PlainCall};
ghost use Rattle.pam_room.specs.Module.{NamedData, SeenRoom, Sight};
ghost use Rattle.mod_history.specs.declared.history.Remembered.{Remembered};
ghost use Rattle.mod_history.specs.History.{IsHistory, history_of, history_text};
ghost use Rattle.mod_history.specs.Pwhistory.{pwhistory_plays};
ghost use Rattle.mod_history.specs.Renewal.{last_of};
ghost use Rattle.mod_history.specs.Standing.{Deed, Does, Follow, Remembers, Served, KeepsHashes, added_by, deeds_of, is_renewed, kept_by, history_on_file};

/// A history that is written is read back as itself, and one that is read can be written.
pub fn written_histories_are_read()
    ensures written { (history : List Remembered) → IsHistory history →
        history_of (history_text history) ≡ Some history }
    ensures read { (text : List ℕ) (history : List Remembered) → history_of text ≡ Some history →
        IsHistory history }
{}

/// What calls of pam_pwhistory(8) do to the history. Each leaves it unchanged, or returns SUCCESS
/// and renews the user's line with the user's hash. After a list of calls with one `remember`,
/// which may be from many transactions, if nothing else changed the file, each user's hashes are
/// the last n of those that were there and those that were added, and the line of a user for whom
/// the file wasn't replaced is as it was.
pub fn hashes_are_kept()
    ensures one { (path : List ℕ) (call : PlainCall) (room : SeenRoom) (held : List NamedData)
        (sight : Sight) →
        (deed : Deed) × Does path call room sight (pwhistory_plays call room held sight) deed }
    ensures all { (path : List ℕ) (remember : ℕ) (calls : List Served)
        (before after : Option (List ℕ)) (history : List Remembered) →
        0 < remember → Follow path before calls after → AllByRecursion (Remembers remember) calls →
        history_on_file before ≡ Some history → KeepsHashes remember (deeds_of calls) history after }
    // The hashes that are kept, one call after another, are the last n of those that were there and
    // those that were added.
    ensures last { (remember : ℕ) (user : List ℕ) (deeds : List Deed) (hashes : List (List ℕ)) →
        0 < remember → is_renewed user deeds ≡ true →
        kept_by remember user deeds hashes ≡ last_of remember (added_by user deeds hashes) }
{}
