ghost use Rattle.std.specs.Prelude.{◌≡◌, IsTrue, IfOk, OnErr};
ghost use Rattle.module_acts.specs.Act.{StepsTo};
ghost use Rattle.mod_history.specs.Pwhistory.{history_in, stores_text};

use crate::history::{History, history_of};
use mod_unix::write_result;
use module_acts::{Content, replace_named};
use pam_base::{Code, NoMemory};
use pam_outside::Vault;
use pam_room::Process;
use std::alloc::Global;

/// The path of the history.
pub(crate) const HISTORY_NAME: &[u8] = b"/etc/security/pamsess_history";

/// The maximum number of bytes of the file.
pub(crate) const HISTORY_LIMIT: u32 = 1_048_576;

/// The lines that were read, unless the file can't be read. One that doesn't exist has none.
pub(crate) fn history_in(alloc: Global, content: Content) -> Result<Option<History>, NoMemory>
    ensures { IfOk result (λ history. history ≡ history_in content) }
{
    match content {
        Content::Absent => Ok(Some(History::new(alloc))),
        Content::Unreadable => Ok(None),
        Content::Holds(text) => history_of(alloc, text.bytes()),
    }
}

/// Replaces the file, unless the text is too long.
pub(crate) fn store_text(
    alloc: Global,
    process: &Process,
    vault: &mut dyn Vault,
    text: &[u8],
) -> Result<Code, NoMemory>
    ensures tells { vault_tells vault.new ≡ vault_tells vault.old }
    ensures err { IsTrue (vault_tells vault.old) →
        OnErr result ((vault_holds vault.new).files ≡ (vault_holds vault.old).files) }
    ensures told { IsTrue (vault_tells vault.old) →
        IfOk result (λ code. StepsTo (stores_text text.now) code process.now
        (vault_holds vault.old) (vault_holds vault.new)) }
{
    if text.len() > HISTORY_LIMIT as usize {
        return Ok(Code::AuthtokErr);
    }
    let done = replace_named(alloc, vault, process, HISTORY_NAME, text)?;
    Ok(write_result(done))
}
