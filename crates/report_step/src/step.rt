ghost use Rattle.std.specs.Prelude.{◌≡◌, ◌≤◌, length, IfOk, string_bytes};
ghost use Rattle.pam_library.specs.dispatch_core.specs.Lines.{names_of};
ghost use Rattle.pam_library.specs.Outcome.{plain_outcome};
ghost use Rattle.pam_library.specs.Plain.{gear_in};
ghost use Rattle.report_step.specs.Cleaned.{AreOwned};
ghost use Rattle.report_step.specs.Step.{step_text};

use crate::answered::write_answer;
use crate::cleaned::write_cleanups;
use crate::missing::write_all_missing;
use crate::said::write_messages;
use crate::visited::write_visits;
use crate::waited::write_waited;
use pam_base::{NoMemory, Step};
use pam_library::data_cleanup::Ledger;
use pam_library::pam_handle::{Gear, GearTold};
use pam_library::{Library, Outcome};
use report_lines::script_lang::call_word;
use std::alloc::Global;

/// The room that a report begins with, in bytes: that of a few lines.
const ROOM: usize = 120;

/// The lines of a step, each with its newline: the messages, the lines that were run, the cleanups, the wait, the
/// missing modules, and the result. Library and cleanup log are those after the step. A reply that was queued has no
/// line.
pub fn step_report(
    alloc: Global,
    library: &Library,
    ledger: &Ledger,
    step: &Step,
    outcome: &Outcome,
) -> Result<String, NoMemory>
    requires owned { AreOwned (length (⟦<Gear as GearTold>⟧.players
        (gear_in library.now))) ledger.now.births }
    requires from { outcome.now.filed_from ≤ length ledger.now.filed }
    ensures { IfOk result (λ text. string_bytes text
        ≡ step_text (names_of (⟦<Gear as GearTold>⟧.players (gear_in library.now))) step.now
        (plain_outcome outcome.now) ledger.now) }
{
    let handle = step.number;
    let command = call_word(&step.call);
    let mut text = String::with_capacity(alloc, ROOM)?;
    write_messages(&mut text, handle, outcome.said.items())?;
    write_visits(&mut text, handle, outcome.trail.items())?;
    write_cleanups(&mut text, handle, library, ledger, outcome.filed_from)?;
    write_waited(&mut text, handle, &outcome.wait)?;
    write_all_missing(&mut text, handle, outcome.missing.items())?;
    write_answer(&mut text, handle, command, &outcome.answer)?;
    Ok(text)
}
