ghost use Rattle.std.specs.Prelude.{◌≡◌, IsTrue, IfOk};
ghost use Rattle.pam_outside.specs.Files.{counted, is_failing};
ghost use Rattle.service_load.specs.Load.{AreBounded, Loads, LoadsFrom};
ghost use Rattle.service_load.specs.Loading.{CountsFaults, OnlyCalls};

use crate::kept::KeptTexts;
use crate::load_fault::LoadFault;
use crate::loader::Loader;
use crate::names::DIRECTORY;
use crate::rule_file::ServiceFiles;
use crate::trees::Trees;
use pam_base::{Refuse, Text};
use pam_outside::{ReplaceFault, Vault, is_directory, path_of};
use std::alloc::Global;
use std::mem;

/// Returns the stacks of a service (`pam.conf(5)`, `pam.d(5)`; libpam: `_pam_init_handlers`), below
/// a root whose trailing slashes don't count.
///
/// The rules are those of `/etc/pam.d/SERVICE`, with the service in lower case; if `/etc/pam.d`
/// isn't a directory, those lines of `/etc/pam.conf` that begin with the service, in any case.
/// `include`, `substack` and `@include` include other files, which are read again each time. If the
/// service has no nodes of a type, the stack is that of the service `other`, or empty if that
/// doesn't exist.
///
/// The fault is the first one that is met, type by type and file by file: when a file is opened,
/// first `TooDeep`, the 17th level; `TooManyFiles`, the 257th opening; `ReadFailed`, if the file
/// can't be read; `IncludeAbsent` or, if neither the service nor `other` exists, `NoService`; the
/// faults of the file's text (`rules`) and of each of its rules (`BadType`, `MissingField`, those
/// of `control_of`); then, rule by rule, `TooManyLines`, the 4,097th line of a stack. It has the
/// file and line of the rule; line 0 means the whole file.
///
/// A load asks once whether the directory exists, and reads a file at each opening. Memory is used
/// for the texts that it reads with their rules, each different text once and until its end, for
/// the rules of the files that are open, at most 17, and for the stacks. If an allocation fails,
/// NoMemory is returned. Of modelled files only the number of accesses changes, whatever is
/// returned, and NoMemory hides no fault of the files.
pub fn load(
    alloc: Global,
    vault: &mut dyn Vault,
    root: &[u8],
    service: &[u8],
) -> Result<Trees, Refuse<LoadFault>>
    ensures tells { vault_tells vault.new ≡ vault_tells vault.old }
    ensures told { IsTrue (vault_tells vault.old) →
        Loads result (vault_holds vault.old) (vault_holds vault.new) root.now service.now }
    ensures stays { IsTrue (vault_tells vault.old) →
        OnlyCalls (vault_holds vault.old) (vault_holds vault.new) }
    ensures bounded { IfOk result (λ trees. AreBounded trees) }
    ensures faults { CountsFaults result (vault_faults vault.old) (vault_faults vault.new) }
{
    let mut kept = KeptTexts::new(alloc);
    load_with(alloc, vault, root, service, &mut kept)
}

/// Like `load`, but a text that an earlier load kept isn't parsed again, and what this one reads is
/// kept for the next: at most 64 texts of 65,536 bytes in all, else none.
pub fn load_with(
    alloc: Global,
    vault: &mut dyn Vault,
    root: &[u8],
    service: &[u8],
    kept: &mut KeptTexts,
) -> Result<Trees, Refuse<LoadFault>>
    ensures tells { vault_tells vault.new ≡ vault_tells vault.old }
    ensures told { IsTrue (vault_tells vault.old) →
        Loads result (vault_holds vault.old) (vault_holds vault.new) root.now service.now }
    ensures stays { IsTrue (vault_tells vault.old) →
        OnlyCalls (vault_holds vault.old) (vault_holds vault.new) }
    ensures bounded { IfOk result (λ trees. AreBounded trees) }
    ensures faults { CountsFaults result (vault_faults vault.old) (vault_faults vault.new) }
{
    let folder = path_of(alloc, root, DIRECTORY)?;
    let unread = Text::from_bytes(alloc, DIRECTORY)?;
    match is_directory(vault, alloc, folder.bytes()) {
        Ok(found) => load_from(alloc, vault, root, found, service, kept),
        Err(ReplaceFault::NoMemory) => Err(Refuse::NoMemory),
        Err(ReplaceFault::Failed) => Err(Refuse::Named(LoadFault::unread(unread))),
    }
}

// The stacks of a service, once it is known whether the directory exists.
fn load_from(
    alloc: Global,
    vault: &mut dyn Vault,
    root: &[u8],
    is_directory: bool,
    service: &[u8],
    kept: &mut KeptTexts,
) -> Result<Trees, Refuse<LoadFault>>
    ensures tells { vault_tells vault.new ≡ vault_tells vault.old }
    ensures told { IsTrue (vault_tells vault.old) →
        LoadsFrom result is_directory (vault_holds vault.old)
        (vault_holds vault.new) root.now service.now }
    ensures stays { IsTrue (vault_tells vault.old) →
        OnlyCalls (vault_holds vault.old) (vault_holds vault.new) }
    ensures bounded { IfOk result (λ trees. AreBounded trees) }
    ensures faults { CountsFaults result (vault_faults vault.old) (vault_faults vault.new) }
{
    let files = ServiceFiles::of(alloc, is_directory, service)?;
    let mut loader = Loader {
        openings: 0,
        lines: 0,
        kept: mem::replace(kept, KeptTexts::new(alloc)),
    };
    let trees = loader.trees(alloc, vault, root, &files);
    *kept = loader.kept.trimmed(alloc);
    trees
}
