ghost use Rattle.std.specs.Prelude.{◌≡◌, ◌++◌, IsTrue, IfOk, OnOk};
ghost use Rattle.std.specs.Str.{str_to_ascii_lowercase};
ghost use Rattle.pam_outside.specs.Counts.{RisesIf};
ghost use Rattle.service_print.specs.service_load.specs.Loading.{OnlyCalls};
ghost use Rattle.service_print.specs.Printed.{printed, stacks_in};
ghost use Rattle.record_reader.specs.Turns.{has_write_fault};
ghost use Rattle.record_reader.specs.Written.{WritesText};
ghost use Rattle.cmd_check.specs.Check.{Checks, Finds, IsCheck, check_of, file_text, files_text};

use pam_base::{NoMemory, Refuse, lowercase};
use pam_outside::{Sink, Vault, write_all};
use record_reader::Stop;
use report_step::refused_report;
use service_print::service_load::{Trees, load};
use service_print::{File, print};
use std::alloc::Global;

/// What a check found.
#[derive(Clone, Copy, Debug, PartialEq, Eq)]
pub enum Checked {
    /// The service is configured, and its configuration was printed.
    Configured,
    /// Its configuration is refused, and its first fault was printed.
    Refused,
}

// What a check found, and the text that it writes.
#[derive(Drop)]
struct Finding {
    found: Checked,
    text: Vec<u8>,
}

/// Prints the configuration of a service under a root: for each of its files, in one form, the line
/// `file NAME` and the text; or else the line of the first fault. Of the world only the counts of
/// `Vault` change. The text is complete before its first byte is written.
pub fn check<K: Sink>(
    alloc: Global,
    root: &[u8],
    service: &[u8],
    out: &mut K,
    vault: &mut dyn Vault,
) -> Result<Checked, Stop>
    ensures sink_tells { K.sink_tells out.new ≡ K.sink_tells out.old }
    ensures vault_tells { vault_tells vault.new ≡ vault_tells vault.old }
    ensures told { IsTrue (K.sink_tells out.old) → IsTrue (vault_tells vault.old) →
        Checks result (check_of (vault_holds vault.old) root.now service.now) (K.sink_holds out.old)
        (K.sink_holds out.new) (vault_holds vault.new) }
    // If only the files are modelled, and if only the output is.
    ensures found { IsTrue (vault_tells vault.old) →
        Finds result (check_of (vault_holds vault.old) root.now service.now)
        (vault_holds vault.new) }
    ensures writes { IsTrue (K.sink_tells out.old) →
        WritesText (K.sink_holds out.old) (K.sink_holds out.new) }
    ensures stays { IsTrue (vault_tells vault.old) →
        OnlyCalls (vault_holds vault.old) (vault_holds vault.new) }
    ensures faults { RisesIf (has_write_fault result) (K.sink_faults out.old)
        (K.sink_faults out.new) }
{
    let finding = find(alloc, root, service, vault)?;
    write_all(out, &finding.text)?;
    Ok(finding.found)
}

fn find(
    alloc: Global,
    root: &[u8],
    service: &[u8],
    vault: &mut dyn Vault,
) -> Result<Finding, NoMemory>
    ensures tells { vault_tells vault.new ≡ vault_tells vault.old }
    ensures told { IsTrue (vault_tells vault.old) →
        IfOk result (λ c. IsCheck c (check_of (vault_holds vault.old) root.now service.now)
        (vault_holds vault.new)) }
    ensures stays { IsTrue (vault_tells vault.old) →
        OnlyCalls (vault_holds vault.old) (vault_holds vault.new) }
{
    match load(alloc, vault, root, service) {
        Ok(trees) => Ok(Finding {
            found: Checked::Configured,
            text: configuration(alloc, &trees, service)?,
        }),
        Err(Refuse::Named(fault)) => Ok(Finding {
            found: Checked::Refused,
            text: refused_report(alloc, &fault)?.into_bytes(),
        }),
        Err(Refuse::NoMemory) => Err(NoMemory),
    }
}

// The files of a configuration, each after its name. The service's name is in lower case.
fn configuration(alloc: Global, trees: &Trees, service: &[u8]) -> Result<Vec<u8>, NoMemory>
    ensures { IfOk result (λ text. text.items
        ≡ files_text (printed (stacks_in trees.now) (str_to_ascii_lowercase service.now))) }
{
    let name = lowercase(alloc, service)?;
    let files = print(alloc, trees, name.bytes())?;
    text_of(alloc, files.items())
}

fn text_of(alloc: Global, files: &[File]) -> Result<Vec<u8>, NoMemory>
    ensures { IfOk result (λ text. text.items ≡ files_text files.now) }
{
    let mut text = Vec::new(alloc);
    for file in files {
        add_file(&mut text, file)?;
    }
    Ok(text)
}

fn add_file(text: &mut Vec<u8>, file: &File) -> Result<(), NoMemory>
    ensures { OnOk result (text.new.items ≡ text.old.items ++ file_text file.now) }
{
    text.extend_from_slice(b"file ")?;
    text.extend_from_slice(file.name.bytes())?;
    text.extend_from_slice(b"\n")?;
    text.extend_from_slice(file.text.bytes())?;
    Ok(())
}
