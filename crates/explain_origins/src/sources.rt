ghost use Rattle.std.specs.Prelude.{◌≡◌, IsTrue, IfOk};
ghost use Rattle.explain_origins.specs.Placed.{placed_from, places, sources_at};
ghost use Rattle.explain_origins.specs.Reading.{CountsReads, ends_failing};
ghost use Rattle.service_load.specs.Kinds.{IfNamed};
ghost use Rattle.service_load.specs.Load.{directory_exists};
ghost use Rattle.service_load.specs.Loading.{OnlyCalls, texts_of};

use crate::files::add_file;
use explain_lines::{Origins, Sources};
use pam_base::{Failed, Refuse};
use pam_outside::{ReplaceFault, Vault, is_directory, path_of};
use service_load::{ByType, RuleType, ServiceFiles};
use std::alloc::Global;

/// Where the rules of a service's stacks are written, below a root: the file and line of each rule
/// of the stacks that `load` returns. Failed is returned only if a file access failed; it is the
/// last one.
pub fn sources_of(
    alloc: Global,
    vault: &mut dyn Vault,
    root: &[u8],
    service: &[u8],
) -> Result<Sources, Refuse<Failed>>
    ensures tells { vault_tells vault.new ≡ vault_tells vault.old }
    ensures told { IsTrue (vault_tells vault.old) → IfOk result (λ found.
        found ≡ sources_at (texts_of root.now (vault_holds vault.old))
        (directory_exists (vault_holds vault.old) root.now) service.now) }
    ensures stays { IsTrue (vault_tells vault.old) →
        OnlyCalls (vault_holds vault.old) (vault_holds vault.new) }
    ensures planned { IsTrue (vault_tells vault.old) →
        IfNamed result (λ failed. IsTrue (ends_failing (vault_holds vault.new))) }
    ensures faults { CountsReads result (vault_faults vault.old) (vault_faults vault.new) }
{
    let is_directory = directory_exists(alloc, vault, root)?;
    let files = ServiceFiles::of(alloc, is_directory, service)?;
    let auth = origins_of(alloc, vault, root, RuleType::Auth, &files)?;
    let account = origins_of(alloc, vault, root, RuleType::Account, &files)?;
    let password = origins_of(alloc, vault, root, RuleType::Password, &files)?;
    let session = origins_of(alloc, vault, root, RuleType::Session, &files)?;
    Ok(ByType {
        auth,
        account,
        password,
        session,
    })
}

// Whether the directory of the service files exists.
fn directory_exists(
    alloc: Global,
    vault: &mut dyn Vault,
    root: &[u8],
) -> Result<bool, Refuse<Failed>>
    ensures tells { vault_tells vault.new ≡ vault_tells vault.old }
    ensures told { IsTrue (vault_tells vault.old) → IfOk result (λ found.
        found ≡ directory_exists (vault_holds vault.old) root.now) }
    ensures stays { IsTrue (vault_tells vault.old) →
        OnlyCalls (vault_holds vault.old) (vault_holds vault.new) }
    ensures planned { IsTrue (vault_tells vault.old) →
        IfNamed result (λ failed. IsTrue (ends_failing (vault_holds vault.new))) }
    ensures faults { CountsReads result (vault_faults vault.old) (vault_faults vault.new) }
{
    let folder = path_of(alloc, root, b"/etc/pam.d")?;
    match is_directory(vault, alloc, folder.bytes()) {
        Ok(found) => Ok(found),
        Err(ReplaceFault::NoMemory) => Err(Refuse::NoMemory),
        Err(ReplaceFault::Failed) => Err(Refuse::Named(Failed)),
    }
}

// The rules of one type: those of the service's own file or, if that adds neither line nor
// substack, of the file of `other`.
fn origins_of(
    alloc: Global,
    vault: &mut dyn Vault,
    root: &[u8],
    rule_type: RuleType,
    files: &ServiceFiles,
) -> Result<Origins, Refuse<Failed>>
    ensures tells { vault_tells vault.new ≡ vault_tells vault.old }
    ensures told { IsTrue (vault_tells vault.old) → IfOk result (λ found.
        found ≡ places (placed_from (texts_of root.now (vault_holds vault.old))
        files.now.own files.now.other rule_type)) }
    ensures stays { IsTrue (vault_tells vault.old) →
        OnlyCalls (vault_holds vault.old) (vault_holds vault.new) }
    ensures planned { IsTrue (vault_tells vault.old) →
        IfNamed result (λ failed. IsTrue (ends_failing (vault_holds vault.new))) }
    ensures faults { CountsReads result (vault_faults vault.old) (vault_faults vault.new) }
{
    let mut origins = Origins::new(alloc);
    let any = add_file(alloc, vault, root, rule_type, 0, &files.own, &mut origins)?;
    if any {
        return Ok(origins);
    }
    add_file(alloc, vault, root, rule_type, 0, &files.other, &mut origins)?;
    Ok(origins)
}
