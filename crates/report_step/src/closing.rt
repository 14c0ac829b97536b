ghost use Rattle.std.specs.Prelude.{◌≡◌, ◌≤◌, length, IfOk, string_bytes};
ghost use Rattle.pam_library.specs.dispatch_core.specs.Lines.{names_of};
ghost use Rattle.pam_library.specs.Plain.{gear_in};
ghost use Rattle.report_step.specs.Cleaned.{AreOwned};
ghost use Rattle.report_step.specs.Closing.{closing_text};

use crate::cleaned::write_cleanups;
use pam_base::{Code, NoMemory};
use pam_library::Library;
use pam_library::data_cleanup::Ledger;
use pam_library::pam_handle::{Gear, GearTold};
use report_lines::write_code_result;
use std::alloc::Global;

/// The lines of a transaction that the program ended with this status, each with its newline: the cleanups after the
/// first n, and `H closed NAME NUMBER`. The cleanup log is the one after the end.
pub fn closing_report(
    alloc: Global,
    library: &Library,
    ledger: &Ledger,
    handle: u32,
    filed_from: u64,
    status: Code,
) -> Result<String, NoMemory>
    requires owned { AreOwned (length (⟦<Gear as GearTold>⟧.players
        (gear_in library.now))) ledger.now.births }
    requires from { filed_from ≤ length ledger.now.filed }
    ensures { IfOk result (λ text. string_bytes text
        ≡ closing_text (names_of (⟦<Gear as GearTold>⟧.players
        (gear_in library.now))) handle status ledger.now filed_from) }
{
    let mut text = String::new(alloc);
    write_cleanups(&mut text, handle, library, ledger, filed_from)?;
    write_code_result(&mut text, handle, "closed", status)?;
    Ok(text)
}
