ghost use Rattle.std.specs.Prelude.{◌≡◌, [], IsTrue, IfOk, string_bytes};
ghost use Rattle.service_load.specs.Load.{AreBounded, directory_exists};
ghost use Rattle.service_load.specs.Loading.{OnlyCalls, texts_of};
ghost use Rattle.service_load.specs.Trees.{stacks_of_trees};
ghost use Rattle.explain_origins.specs.Placed.{sources_at};
ghost use Rattle.ways_lines.specs.Service.{ShowsService};
ghost use Rattle.ways.specs.Said.{IsOutputBy, IsOutputOf, IsRefused, IsSaidWith, IsWithoutTable};
ghost use Rattle.ways.specs.Said.{IsWritten, One, OrUnread, Says, Tells, malformed_written};
ghost use Rattle.ways.specs.Said.{refused_written, unread_written, written};

use explain_lines::Sources;
use explain_origins::sources_of;
use module_table::{Entry, TableFault, read_table};
use pam_base::{Failed, NoMemory, Refuse, push_quoted};
use pam_outside::Vault;
use report_lines::write_refused;
use service_load::{LoadFault, Trees, load};
use std::alloc::Global;
use ways_lines::write_service;

const REFUSED: u8 = 3;

const READ_FAULT: u8 = 5;

const MALFORMED: u8 = 13;

/// The exit status, and what is written.
#[derive(Drop)]
pub struct Output {
    pub status: u8,
    pub text: String,
}

/// The rules and the ways of the stacks of a service under a root, if modules return what a table
/// says; or the first fault of its configuration.
///
/// The service is loaded, and its files are then read once more for the places of its rules. If an
/// access fails then, nothing is written, and the status is 5. Of the world only the counts of
/// `Vault` change.
pub fn said(
    alloc: Global,
    root: &[u8],
    service: &[u8],
    table: &[u8],
    vault: &mut dyn Vault,
) -> Result<Output, NoMemory>
    ensures tells { vault_tells vault.new ≡ vault_tells vault.old }
    ensures told { IsTrue (vault_tells vault.old) → IfOk result (λ output.
        Says (λ w. IsWritten output w) (vault_holds vault.old) root.now service.now
        table.now (vault_holds vault.new)) }
    ensures stays { IsTrue (vault_tells vault.old) →
        OnlyCalls (vault_holds vault.old) (vault_holds vault.new) }
    // What holds with real files, too.
    ensures shows { IfOk result (λ output. IsOutputOf output service.now table.now
        (vault_faults vault.old) (vault_faults vault.new)) }
{
    match load(alloc, vault, root, service) {
        Ok(trees) => said_by(alloc, root, service, &trees, table, vault),
        Err(stop) => refused_by(alloc, stop),
    }
}

// What is written if there are no stacks.
fn refused_by(alloc: Global, stop: Refuse<LoadFault>) -> Result<Output, NoMemory>
    ensures { IfOk result (λ output. IsRefused output stop) }
{
    match stop {
        Refuse::Named(fault) => refused(alloc, &fault),
        Refuse::NoMemory => Err(NoMemory),
    }
}

// What is written of the stacks of a service, whose rules are looked up.
fn said_by(
    alloc: Global,
    root: &[u8],
    service: &[u8],
    trees: &Trees,
    table: &[u8],
    vault: &mut dyn Vault,
) -> Result<Output, NoMemory>
    requires bounded { AreBounded trees.now }
    ensures tells { vault_tells vault.new ≡ vault_tells vault.old }
    ensures told { IsTrue (vault_tells vault.old) → IfOk result (λ output.
        OrUnread (λ w. IsWritten output w) (Tells service.now (stacks_of_trees trees.now)
        (sources_at (texts_of root.now (vault_holds vault.old))
        (directory_exists (vault_holds vault.old) root.now) service.now) table.now)
        (vault_holds vault.new)) }
    ensures stays { IsTrue (vault_tells vault.old) →
        OnlyCalls (vault_holds vault.old) (vault_holds vault.new) }
    ensures shows { IfOk result (λ output. IsOutputBy output service.now (stacks_of_trees trees.now)
        table.now (vault_faults vault.old) (vault_faults vault.new)) }
{
    let found = sources_of(alloc, vault, root, service);
    said_with(alloc, service, trees, found, table)
}

// The output, depending on whether the places of the rules were found.
fn said_with(
    alloc: Global,
    service: &[u8],
    trees: &Trees,
    found: Result<Sources, Refuse<Failed>>,
    table: &[u8],
) -> Result<Output, NoMemory>
    requires bounded { AreBounded trees.now }
    ensures { IfOk result (λ output.
        IsSaidWith output service.now (stacks_of_trees trees.now) found table.now) }
{
    match found {
        Ok(sources) => said_at(alloc, service, trees, &sources, table),
        Err(Refuse::Named(Failed)) => Ok(unread(alloc)),
        Err(Refuse::NoMemory) => Err(NoMemory),
    }
}

/// What is written if something couldn't be read.
pub fn unread(alloc: Global) -> Output
    ensures { IsWritten result unread_written }
{
    Output {
        status: READ_FAULT,
        text: String::new(alloc),
    }
}

fn refused(alloc: Global, fault: &LoadFault) -> Result<Output, NoMemory>
    ensures { IfOk result (λ output. IsWritten output (refused_written fault.now)) }
{
    let mut text = String::new(alloc);
    write_refused(&mut text, fault)?;
    text.push_str("\n")?;
    Ok(Output {
        status: REFUSED,
        text,
    })
}

// What is written of stacks whose rules are written at these sources, by the text of a table.
fn said_at(
    alloc: Global,
    service: &[u8],
    trees: &Trees,
    sources: &Sources,
    table: &[u8],
) -> Result<Output, NoMemory>
    requires bounded { AreBounded trees.now }
    ensures { IfOk result (λ output. One (λ w. IsWritten output w)
        (Tells service.now (stacks_of_trees trees.now) sources.now table.now)) }
{
    match read_table(alloc, table) {
        Ok(entries) => listed(alloc, service, trees, sources, entries.items()),
        Err(fault) => without_table(alloc, fault),
    }
}

// What is written if there is no table.
fn without_table(alloc: Global, fault: TableFault<'_>) -> Result<Output, NoMemory>
    ensures { IfOk result (λ output. IsWithoutTable output fault.entry) }
{
    match fault {
        TableFault::Malformed(line) => malformed(alloc, line),
        TableFault::NoMemory => Err(NoMemory),
    }
}

fn listed(
    alloc: Global,
    service: &[u8],
    trees: &Trees,
    sources: &Sources,
    table: &[Entry],
) -> Result<Output, NoMemory>
    requires bounded { AreBounded trees.now }
    ensures status { IfOk result (λ output. output.status ≡ 0) }
    ensures shows { IfOk result (λ output. ShowsService service.now (stacks_of_trees trees.now)
        sources.now table.now [] (string_bytes output.text)) }
{
    let mut text = String::new(alloc);
    write_service(alloc, &mut text, service, trees, sources, table)?;
    Ok(Output { status: 0, text })
}

fn malformed(alloc: Global, line: &[u8]) -> Result<Output, NoMemory>
    ensures { IfOk result (λ output. IsWritten output (malformed_written line.now)) }
{
    let mut text = String::new(alloc);
    text.push_str("table\t")?;
    push_quoted(&mut text, line)?;
    text.push_str("\n")?;
    Ok(Output {
        status: MALFORMED,
        text,
    })
}

/// An output of one line, with this status.
pub fn line_by(alloc: Global, status: u8, line: &str) -> Result<Output, NoMemory>
    ensures { IfOk result (λ output. IsWritten output (written status line.now)) }
{
    let mut text = String::new(alloc);
    text.push_str(line)?;
    Ok(Output { status, text })
}
