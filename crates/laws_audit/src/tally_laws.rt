ghost use Rattle.std.specs.Prelude.{◌≡◌, ℕ, false, List, codes};
ghost use Rattle.std.specs.List.{AllByRecursion};
ghost use Rattle.pam_base.specs.declared.code.Code.{Code};
ghost use Rattle.pam_library.specs.Plays.{AskedLine};
ghost use Rattle.record_reader.specs.LineRun.{run_lines};
ghost use Rattle.cmd_run.specs.Closings.{all_closed};
ghost use Rattle.cmd_run.specs.State.{RunState, Setting};
ghost use Rattle.cmd_run.specs.Step.{line_step};
ghost use Rattle.cmd_run.specs.Visits.{ScriptAsks};
ghost use Rattle.pam_room.specs.Module.{Player};
ghost use Rattle.mod_tally.specs.Faillock.{is_no_file};
ghost use Rattle.laws_audit.specs.Others.{AreKnown, IsApart, other_plays, tally_path};
ghost use Rattle.laws_audit.specs.Tallied.{FaillockAloneWrites, LeavesFile, Tallies};

/// If pam_faillock(8) alone writes a user's file, then whatever the steps of a run are, the file
/// holds what the calls of its lines write, in order: each with the arguments of its rule, and with
/// the room, the files and the time as the line before left them (`script`). A recorded failure is
/// dropped only when a later one is recorded and it doesn't count any more, or when the failures
/// are cleared. The implicit ends of the run don't change the file (`closings`). This is a law
/// about the definitions: its contract states it.
pub fn runs_keep_recorded_failures()
    ensures script { (path : List ℕ) (setting : Setting) (n : ℕ) (s : RunState) (script : List
        (List ℕ)) →
        FaillockAloneWrites path setting.players →
        (asked : List AskedLine) × ScriptAsks setting n s script asked
        × Tallies path setting.players s.world.vault.files asked
        (run_lines (line_step setting) n s script).last.world.vault.files }
    ensures closings { (path : List ℕ) (setting : Setting) (n : ℕ) (s : RunState) (script : List
        (List ℕ)) (status : Code) →
        FaillockAloneWrites path setting.players →
        (asked : List AskedLine) × ScriptAsks setting n s script asked
        × Tallies path setting.players s.world.vault.files asked
        (all_closed setting.players status (run_lines
        (line_step setting) n s script).last).world.vault.files }
{
    mod_tally::laws::recorded_failures_are_kept();
    mod_tally::laws::written_tallies_are_read();
    cmd_run::laws::runs_change_files_by_plays();
}

/// The fourteen other modules leave the file of each user in the directory of pam_faillock(8), under
/// any root: the one named by its argument `dir=`, if the last part of that is neither `etc` nor
/// `security`, or `/var/run/faillock`, which is used without that argument. So pam_faillock alone
/// writes it if a library has no other modules than these fifteen. This is a law about the
/// definitions: its contract states it.
pub fn other_modules_leave_tallies()
    ensures others { (root folder user : List ℕ) → IsApart folder → is_no_file user ≡ false →
        AllByRecursion (LeavesFile (tally_path root folder user)) other_plays }
    ensures usual { IsApart (codes "/var/run/faillock") }
    ensures alone { (root folder user : List ℕ) → IsApart folder → is_no_file user ≡ false →
        (players : List Player) → AreKnown players →
        FaillockAloneWrites (tally_path root folder user) players }
{}
