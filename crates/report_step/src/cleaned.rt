ghost use Rattle.std.specs.Prelude.{◌≡◌, ◌++◌, ◌<◌, ◌≤◌, length, OnOk, string_bytes};
ghost use Rattle.pam_library.specs.dispatch_core.specs.Lines.{names_of};
ghost use Rattle.pam_library.specs.Plain.{gear_in};
ghost use Rattle.report_step.specs.Cleaned.{cleanup_text, filed_text, cleanups_text, AreOwned};

use pam_base::NoMemory;
use pam_library::Library;
use pam_library::data_cleanup::{Births, Filed, Ledger, Receipt};
use pam_library::pam_handle::{Gear, GearTold};
use report_lines::write_cleaned;

/// Adds a line for each cleanup record after the first n, in order. The owner of each data set is one of the
/// library's modules.
pub(crate) fn write_cleanups(
    text: &mut String,
    handle: u32,
    library: &Library,
    ledger: &Ledger,
    filed_from: u64,
) -> Result<(), NoMemory>
    requires owned { AreOwned (length (⟦<Gear as GearTold>⟧.players
        (gear_in library.now))) ledger.now.births }
    requires from { filed_from ≤ length ledger.now.filed }
    ensures { OnOk result (string_bytes text.new ≡ string_bytes text.old
        ++ cleanups_text handle (names_of (⟦<Gear as GearTold>⟧.players
        (gear_in library.now))) ledger.now filed_from) }
{
    pam_library::data_cleanup::laws::ledger_is_sound(ledger);
    let births = ledger.births();
    for filed in &ledger.filed()[filed_from as usize..] {
        write_filed(text, handle, library, births, filed)?;
    }
    Ok(())
}

// Adds the line of a cleanup record.
fn write_filed(
    text: &mut String,
    handle: u32,
    library: &Library,
    births: &Births,
    filed: &Filed,
) -> Result<(), NoMemory>
    requires owned { AreOwned (length (⟦<Gear as GearTold>⟧.players
        (gear_in library.now))) births.now }
    requires born { filed.now.receipt.id < length births.now }
    ensures { OnOk result (string_bytes text.new ≡ string_bytes text.old
        ++ filed_text handle (names_of (⟦<Gear as GearTold>⟧.players
        (gear_in library.now))) births.now filed.now) }
{
    let birth = births.at(filed.receipt.id as usize);
    let owner = library.module_name(birth.owner);
    write_cleanup(text, handle, &filed.receipt, owner, birth.name.bytes())
}

fn write_cleanup(
    text: &mut String,
    handle: u32,
    receipt: &Receipt,
    owner: &[u8],
    datum: &[u8],
) -> Result<(), NoMemory>
    ensures { OnOk result (string_bytes text.new ≡ string_bytes text.old
        ++ cleanup_text handle receipt.now owner.now datum.now) }
{
    write_cleaned(
        text,
        handle,
        receipt.id,
        receipt.status,
        receipt.note,
        owner,
        datum,
    )
}
