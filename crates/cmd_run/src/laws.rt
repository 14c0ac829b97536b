ghost use Rattle.cmd_run.specs.AnyWorld.{CallsAddEvents};
ghost use Rattle.cmd_run.specs.Isolation.{TransactionsGoAlone};
ghost use Rattle.cmd_run.specs.Reading.{RefusesByBytes};
ghost use Rattle.cmd_run.specs.SideBySide.{NumbersGoAlone};
ghost use Rattle.cmd_run.specs.Visits.{FilesChangeByPlays};

/// If the cleanup log and the module data model some events before a run, they model these events
/// followed by those of the run's calls after it.
pub fn proceeding_adds_events()
    ensures { CallsAddEvents }
{
    report_step::pam_library::laws::calls_add_their_events();
}

/// A transaction does what it would do alone.
///
/// Take a run in which no access to a file fails and no step on another number changes a file, and the run of the
/// same script in which every step on another number is a blank line. In both, the steps on this number report and
/// return the same, and the same module data is set and cleaned up in the same order; only the numbers of data sets
/// and the positions in the cleanup log may differ. This holds whatever the modules do.
pub fn transactions_go_as_alone()
    ensures { TransactionsGoAlone }
{
    report_step::pam_library::laws::calls_keep_to_themselves();
}

/// What the lines in some bytes do, for each transaction number. The slot of a number after them,
/// and the results of the steps on it, are those of its own steps alone, each in the world as it
/// was before that step (`alone`). The report is that of all steps, in order (`steps`).
pub fn numbers_go_alone()
    ensures { NumbersGoAlone }
{
    report_step::pam_library::laws::places_go_alone();
}

/// Which line in some bytes is refused, and why, depends on the bytes alone: a run over them refuses the same line,
/// whatever its lines do and from whatever state.
pub fn refusals_are_of_the_bytes()
    ensures { RefusesByBytes }
{}

/// For each step, what the modules of the stack lines that a script runs get (`ScriptAsks`), each at
/// the time of its step. Their definitions change files, one after another, and nothing else does.
/// The implicit pam_end calls after it change no file.
pub fn runs_change_files_by_plays()
    ensures { FilesChangeByPlays }
{
    report_step::pam_library::laws::steps_change_files_by_plays();
}
