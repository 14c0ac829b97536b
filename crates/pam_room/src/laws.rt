ghost use Rattle.std.specs.Prelude.{◌≡◌, ℕ, List, [], ◌++◌, IsTrue};
ghost use Rattle.data_cleanup.specs.DataList.{PlainDataList};
ghost use Rattle.data_cleanup.specs.Ledger.{PlainLedger};
ghost use Rattle.data_cleanup.specs.Sets.{Sets};
ghost use Rattle.pam_outside.specs.Files.{File};
ghost use Rattle.pam_room.specs.State.{PlainTransaction, PlainProcess, Scene};
ghost use Rattle.pam_room.specs.Stays.{Stays};
ghost use Rattle.pam_room.specs.Module.{HasSet, LeavesAs, NamedData, Played, same_files, with_played};

// Laws about the definitions, for the proofs of callers.

/// If no data were set, nothing changed.
pub fn nothing_is_set()
    ensures { (owner : ℕ) (list : PlainDataList) (ledger : PlainLedger) →
        HasSet owner [] list ledger list ledger }
{}

/// Some data that were set, and others after them.
pub fn setting_goes_on()
    ensures { (owner : ℕ) (first next : List NamedData) (x y z : PlainDataList)
        (a b c : PlainLedger) →
        HasSet owner first x a y b → HasSet owner next y b z c →
        HasSet owner (first ++ next) x a z c }
{}

/// Data that were set are those of their owner, and nothing else happened to the list and the
/// cleanup log.
pub fn set_data_are_sets()
    ensures sets { (owner : ℕ) (ds : List NamedData) (x y : PlainDataList) (a b : PlainLedger) →
        HasSet owner ds x a y b → Sets owner x a y b }
    ensures handle { (owner : ℕ) (ds : List NamedData) (x y : PlainDataList) (a b : PlainLedger) →
        HasSet owner ds x a y b → y.handle ≡ x.handle }
{}

/// What a module leaves is what its definition says, if that holds for each part of it.
pub fn parts_are_played()
    ensures { (p : Played) (old new : Scene) →
        old.room.transaction.datums.handle ≡ old.room.transaction.handle →
        LeavesAs p old new → new ≡ with_played p old }
{}

/// What two calls one after the other leave as it was, both together do.
pub fn staying_is_transitive()
    ensures { (x y z : PlainTransaction) (a b c : PlainProcess) → Stays x y a b → Stays y z b c →
        Stays x z a c }
{}

/// Files that stayed are the same files, as `keeps_files` asks for.
pub fn files_stay()
    ensures { (files : List File) → IsTrue (same_files files files) }
{}
