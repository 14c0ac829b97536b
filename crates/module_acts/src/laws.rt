ghost use Rattle.std.specs.Prelude.{◌≡◌, ℕ, Result, IfOk, List};
ghost use Rattle.pam_base.specs.declared.code.Code.{Code};
ghost use Rattle.pam_base.specs.declared.fault.NoMemory.{NoMemory};
ghost use Rattle.pam_room.specs.item_store.specs.Items.{ItemTexts};
ghost use Rattle.pam_outside.specs.Files.{VaultState};
ghost use Rattle.pam_outside.specs.Time.{ClockState, random_taken, Time, time_of};
ghost use Rattle.pam_room.specs.Call.{PlainCall};
ghost use Rattle.pam_room.specs.State.{PlainProcess, PlainRoom, Scene, scene_of};
ghost use Rattle.pam_room.specs.Module.{PlaysIn, NamedData, named_data};
ghost use Rattle.module_acts.specs.Accounts.{Known, nothing_known};
ghost use Rattle.module_acts.specs.Act.{Act, Acts, answers, draws_word, plays_by, sees_items, sees_moment};
ghost use Rattle.pam_base.specs.declared.fault.ConvErr.{ConvErr};
ghost use Rattle.pam_base.specs.declared.fault.Refuse.{Refuse};
ghost use Rattle.pam_room.specs.data_cleanup.specs.Ledger.{PlainLedger};
ghost use Rattle.pam_room.specs.data_cleanup.specs.Sets.{Sets};
ghost use Rattle.pam_room.specs.declared.transaction.Transaction.{Transaction};
ghost use Rattle.pam_room.specs.Plain.{plain_transaction};
ghost use Rattle.pam_room.specs.Stays.{Stays};
ghost use Rattle.module_acts.specs.Returns.{Finishes, Returns};
ghost use Rattle.module_acts.specs.Steps.{sees_caller, sees_clock, sees_data};
ghost use Rattle.module_acts.specs.OnlyTalks.{OnlyTalks};
ghost use Rattle.module_acts.specs.SetsNoData.{SetsNoData};

/// The laws of the steps that see something and make no call.
pub fn acting()
    ensures data { (act : List NamedData → Act) (known : Known) (s : Scene) (code : Code)
        (new : Scene) →
        Acts (act (named_data s.room.transaction.datums.live)) known s code new →
        Acts (sees_data act) known s code new }
    ensures clock { (act : Time → Act) (known : Known) (s : Scene) (code : Code)
        (new : Scene) →
        Acts (act (time_of s.clock)) known s code new → Acts (sees_clock act) known s code new }
    ensures caller { (act : ℕ → Act) (known : Known) (s : Scene) (code : Code) (new : Scene) →
        Acts (act s.process.caller) known s code new → Acts (sees_caller act) known s code new }
{}

/// What a step that gives the module's code returns is what the whole returns.
pub fn codes_finish()
    ensures { (step : (Code → Act) → Act) (result : Result Code (Refuse ConvErr))
        (old new : Scene) → Returns result step old new →
        Finishes result (step answers) old new }
{}

/// What holds for a module that talks, with real objects too.
pub fn talking()
    ensures none { (t : Transaction) → OnlyTalks t t }
    ensures again { (t u v : Transaction) → OnlyTalks t u → OnlyTalks u v → OnlyTalks t v }
    ensures stays { (t u : Transaction) (process : PlainProcess) → OnlyTalks t u →
        Stays (plain_transaction t) (plain_transaction u) process process }
    ensures others { (t u : Transaction) → OnlyTalks t u → (u.serving ≡ t.serving) ×
        (u.trail ≡ t.trail) × (u.handle ≡ t.handle) × (u.datums ≡ t.datums) }
    ensures sets { (t u : Transaction) (ledger : PlainLedger) → OnlyTalks t u →
        Sets t.serving t.datums ledger u.datums ledger }
    ensures no_data { (t u : Transaction) → OnlyTalks t u → SetsNoData t u }
{}

/// What holds for a module that sets no data, with real objects too.
pub(crate) fn no_data_are_set()
    ensures none { (t : Transaction) → SetsNoData t t }
    ensures stays { (t u : Transaction) (process : PlainProcess) → SetsNoData t u →
        Stays (plain_transaction t) (plain_transaction u) process process }
    ensures sets { (t u : Transaction) (ledger : PlainLedger) → SetsNoData t u →
        Sets t.serving t.datums ledger u.datums ledger }
{}

/// The laws of the steps that make no call, and of the end of a definition. The law of a step puts
/// it before the rest of the definition.
pub fn act_steps()
    ensures answers { (code : Code) (known : Known) (s : Scene) →
        Acts (answers code) known s code s }
    ensures seeing { (act : ItemTexts → Act) (known : Known) (s : Scene) (code : Code)
        (new : Scene) →
        Acts (act s.room.transaction.items) known s code new →
        Acts (sees_items act) known s code new }
    ensures timing { (act : ℕ → Act) (known : Known) (s : Scene) (code : Code) (new : Scene) →
        Acts (act s.clock.moment) known s code new → Acts (sees_moment act) known s code new }
    ensures drawing { (act : ℕ → Act) (known : Known) (room : PlainRoom) (vault : VaultState)
        (clock : ClockState) (process : PlainProcess) (code : Code) (new : Scene) →
        Acts (act clock.word) known (scene_of room vault (random_taken clock) process) code new →
        Acts (draws_word act) known (scene_of room vault clock process) code new }
    ensures playing { (act : PlainCall → Act) (call : PlainCall) (old new : Scene)
        (result : Result Code NoMemory) →
        IfOk result (λ code. Acts (act call) nothing_known old code new) →
        IfOk result (λ code. PlaysIn (plays_by act) call old code new) }
{}
