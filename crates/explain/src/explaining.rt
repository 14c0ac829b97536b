ghost use Rattle.std.specs.Prelude.{◌≡◌, ◌≤◌, IsTrue, IfOk, length};
ghost use Rattle.session_audit.specs.pass_replay.specs.Retold.{stacks_in};
ghost use Rattle.session_audit.specs.service_load.specs.Load.{AreBounded, directory_exists};
ghost use Rattle.session_audit.specs.service_load.specs.Loading.{OnlyCalls, texts_of};
ghost use Rattle.explain_origins.specs.Placed.{sources_at};
ghost use Rattle.explain.specs.Explained.{Explains, IsExplained, IsExplainedWith, IsRefused, OrUnread, IsOutputOf, IsOutputBy, explained_of, refused_explained, unread_explained, written};

use explain_origins::sources_of;
use explain_report::explain_lines::Sources;
use explain_report::explain_report;
use pam_base::{Failed, NoMemory, Refuse};
use pam_outside::Vault;
use session_audit::report_lines::write_refused;
use session_audit::service_load::{LoadFault, Trees, load};
use session_audit::{Verdict, audit};
use std::alloc::Global;

const REFUSED: u8 = 3;

const READ_FAULT: u8 = 5;

const DIFFERS: u8 = 11;

/// The exit status, and what is written.
#[derive(Drop)]
pub struct Output {
    pub status: u8,
    pub text: String,
}

/// The explanation of a report of at most 1,048,576 bytes against the stacks of a service under a
/// root, or the first fault of its configuration.
///
/// The service is loaded, and its files are then read once more for the places of its rules. If an
/// access fails then, nothing is written, and the status is 5. Of the world only the counts of
/// `Vault` change.
pub fn explanation(
    alloc: Global,
    root: &[u8],
    service: &[u8],
    report: &[u8],
    vault: &mut dyn Vault,
) -> Result<Output, NoMemory>
    requires short { length report.now ≤ 1048576 }
    ensures tells { vault_tells vault.new ≡ vault_tells vault.old }
    ensures told { IsTrue (vault_tells vault.old) → IfOk result (λ output.
        Explains (λ w. IsExplained output w) (vault_holds vault.old) root.now service.now
        report.now (vault_holds vault.new)) }
    ensures stays { IsTrue (vault_tells vault.old) →
        OnlyCalls (vault_holds vault.old) (vault_holds vault.new) }
    // What holds with real files, too.
    ensures shows { IfOk result (λ output.
        IsOutputOf output report.now (vault_faults vault.old) (vault_faults vault.new)) }
{
    match load(alloc, vault, root, service) {
        Ok(trees) => explained_by(alloc, root, service, &trees, report, vault),
        Err(stop) => refused_by(alloc, stop),
    }
}

// What is written if there are no stacks.
fn refused_by(alloc: Global, stop: Refuse<LoadFault>) -> Result<Output, NoMemory>
    ensures { IfOk result (λ output. IsRefused output stop) }
{
    match stop {
        Refuse::Named(fault) => refused(alloc, &fault),
        Refuse::NoMemory => Err(NoMemory),
    }
}

// The explanation of a report against the stacks of a service, whose rules are looked up.
fn explained_by(
    alloc: Global,
    root: &[u8],
    service: &[u8],
    trees: &Trees,
    report: &[u8],
    vault: &mut dyn Vault,
) -> Result<Output, NoMemory>
    requires bounded { AreBounded trees.now }
    requires short { length report.now ≤ 1048576 }
    ensures tells { vault_tells vault.new ≡ vault_tells vault.old }
    ensures told { IsTrue (vault_tells vault.old) → IfOk result (λ output.
        OrUnread (λ w. IsExplained output w) (explained_of (stacks_in trees.now) (sources_at
        (texts_of root.now (vault_holds vault.old)) (directory_exists (vault_holds vault.old) root.now)
        service.now) report.now) (vault_holds vault.new)) }
    ensures stays { IsTrue (vault_tells vault.old) →
        OnlyCalls (vault_holds vault.old) (vault_holds vault.new) }
    ensures shows { IfOk result (λ output. IsOutputBy output (stacks_in trees.now) report.now
        (vault_faults vault.old) (vault_faults vault.new)) }
{
    let found = sources_of(alloc, vault, root, service);
    explained_with(alloc, trees, found, report)
}

// The output, depending on whether the places of the rules were found.
fn explained_with(
    alloc: Global,
    trees: &Trees,
    found: Result<Sources, Refuse<Failed>>,
    report: &[u8],
) -> Result<Output, NoMemory>
    requires bounded { AreBounded trees.now }
    requires short { length report.now ≤ 1048576 }
    ensures { IfOk result (λ output.
        IsExplainedWith output (stacks_in trees.now) found report.now) }
{
    match found {
        Ok(sources) => explained(alloc, trees, &sources, report),
        Err(Refuse::Named(Failed)) => Ok(unread(alloc)),
        Err(Refuse::NoMemory) => Err(NoMemory),
    }
}

/// What is written if something couldn't be read.
pub fn unread(alloc: Global) -> Output
    ensures { IsExplained result unread_explained }
{
    Output {
        status: READ_FAULT,
        text: String::new(alloc),
    }
}

fn refused(alloc: Global, fault: &LoadFault) -> Result<Output, NoMemory>
    ensures { IfOk result (λ output. IsExplained output (refused_explained fault.now)) }
{
    let mut text = String::new(alloc);
    write_refused(&mut text, fault)?;
    text.push_str("\n")?;
    Ok(Output {
        status: REFUSED,
        text,
    })
}

// The explanation of a report against stacks, whose rules are written at these sources.
fn explained(
    alloc: Global,
    trees: &Trees,
    sources: &Sources,
    report: &[u8],
) -> Result<Output, NoMemory>
    requires bounded { AreBounded trees.now }
    requires short { length report.now ≤ 1048576 }
    ensures { IfOk result (λ output. IsExplained output
        (explained_of (stacks_in trees.now) sources.now report.now)) }
{
    match audit(alloc, trees, report)? {
        Verdict::Fits => Ok(Output {
            status: 0,
            text: explain_report(alloc, trees, sources, report)?,
        }),
        Verdict::Differs { line } => Ok(Output {
            status: DIFFERS,
            text: format!(in alloc; "differs {line}\n")?,
        }),
    }
}

/// An output of one line, with this status.
pub fn line_by(alloc: Global, status: u8, line: &str) -> Result<Output, NoMemory>
    ensures { IfOk result (λ output. IsExplained output (written status line.now)) }
{
    let mut text = String::new(alloc);
    text.push_str(line)?;
    Ok(Output { status, text })
}
