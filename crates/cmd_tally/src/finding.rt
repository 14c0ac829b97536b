ghost use Rattle.std.specs.Prelude.{◌≡◌, ◌≢◌, ◌⊎◌, ◌++◌, ◌≤◌, IsTrue, IfOk, OnOk, OnErr, flat_map};
ghost use Rattle.std.specs.Option.{option_copied};
ghost use Rattle.pam_outside.specs.Counts.{Rose};
ghost use Rattle.pam_outside.specs.Files.{counted};
ghost use Rattle.mod_tally.specs.Tally.{failure_line, failures_of};
ghost use Rattle.cmd_tally.specs.Tally.{IsTally, by_text, damaged, listed, tally_of, tally_path, unread};

use mod_tally::{Failure, Failures, TALLY_LIMIT, failures, write_failure};
use pam_base::{NoMemory, Refuse, Text};
use pam_outside::{Vault, VaultFault, path_of, read_file};
use std::alloc::Global;

/// What was found of a user's failures.
#[derive(Clone, Copy, Debug, PartialEq, Eq)]
pub enum Tallied {
    /// The failures were listed.
    Listed,
    /// The file isn't a tally, or has more than 65,536 bytes.
    Damaged,
    /// Reading the file failed.
    Unread,
}

// What was found, and the text that is written.
#[derive(Drop)]
pub(crate) struct Finding {
    pub(crate) tallied: Tallied,
    pub(crate) text: Text,
}

/// Reads the failures in a user's file.
#[tactic(auto, unfolding(crate::specs::Tally::tally_of))]
pub(crate) fn find(
    alloc: Global,
    root: &[u8],
    user: &[u8],
    vault: &mut dyn Vault,
) -> Result<Finding, NoMemory>
    ensures tells { vault_tells vault.new ≡ vault_tells vault.old }
    ensures told { IsTrue (vault_tells vault.old) →
        IfOk result (λ found. IsTally found (tally_of (vault_holds vault.old) root.now user.now)) }
    ensures calls { IsTrue (vault_tells vault.old) →
        OnOk result (vault_holds vault.new ≡ counted (vault_holds vault.old)) }
    ensures no_calls { IsTrue (vault_tells vault.old) →
        OnErr result ((vault_holds vault.new ≡ counted (vault_holds vault.old))
        ⊎ (vault_holds vault.new ≡ vault_holds vault.old)) }
    ensures unread { IfOk result (λ found. found.tallied ≡ Tallied.Unread →
        Rose (vault_faults vault.old) (vault_faults vault.new)) }
    ensures read { IfOk result (λ found. found.tallied ≢ Tallied.Unread →
        vault_faults vault.new ≡ vault_faults vault.old) }
{
    let path = tally_path(alloc, root, user)?;
    match read_file(vault, alloc, path.bytes(), TALLY_LIMIT) {
        Ok(text) => by_text(alloc, text.bytes()),
        Err(VaultFault::Absent) => listed(alloc, &[]),
        Err(VaultFault::TooLong) => damaged(alloc),
        Err(VaultFault::Failed) => unread(alloc),
        Err(VaultFault::NoMemory) => Err(NoMemory),
    }
}

fn tally_path(alloc: Global, root: &[u8], user: &[u8]) -> Result<Text, NoMemory>
    ensures { IfOk result (λ path. path ≡ tally_path root.now user.now) }
{
    let mut name = Vec::from_slice(alloc, b"/var/run/faillock/")?;
    name.extend_from_slice(user)?;
    path_of(alloc, root, &name)
}

fn by_text(alloc: Global, text: &[u8]) -> Result<Finding, NoMemory>
    ensures told { IfOk result (λ found. IsTally found (by_text (failures_of text.now))) }
    ensures read { IfOk result (λ found. found.tallied ≢ Tallied.Unread) }
{
    match failures(alloc, text) {
        Ok(found) => listed(alloc, found.items()),
        Err(refused) => match refused {
            Refuse::NoMemory => Err(NoMemory),
            Refuse::Named(_) => damaged(alloc),
        },
    }
}

fn listed(alloc: Global, failures: &[Failure]) -> Result<Finding, NoMemory>
    ensures told { IfOk result (λ found. IsTally found (listed failures.now)) }
    ensures read { IfOk result (λ found. found.tallied ≢ Tallied.Unread) }
{
    let mut text = Vec::new(alloc);
    for failure in failures {
        write_failure(alloc, &mut text, failure)?;
    }
    let count = failures.len();
    let last = format!(in alloc; "failures {count}\n")?;
    text.extend_from_slice(last.as_bytes())?;
    Ok(Finding {
        tallied: Tallied::Listed,
        text: Text::from_vec(text),
    })
}

fn damaged(alloc: Global) -> Result<Finding, NoMemory>
    ensures told { IfOk result (λ found. IsTally found damaged) }
    ensures read { IfOk result (λ found. found.tallied ≢ Tallied.Unread) }
{
    Ok(Finding {
        tallied: Tallied::Damaged,
        text: Text::from_bytes(alloc, b"tally damaged\n")?,
    })
}

fn unread(alloc: Global) -> Result<Finding, NoMemory>
    ensures told { IfOk result (λ found. IsTally found unread) }
    ensures unread { IfOk result (λ found. found.tallied ≡ Tallied.Unread) }
{
    Ok(Finding {
        tallied: Tallied::Unread,
        text: Text::from_bytes(alloc, b"tally unread\n")?,
    })
}
