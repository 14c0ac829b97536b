//! `explain ROOT SERVICE < REPORT`: for each stack call of a report that `pamsess run ROOT` printed,
//! what became of each rule of its stack: where the rule is written, what its module returned, the
//! action that its control picked, the state that this made, why it wasn't run, and which rule
//! decided. A report that doesn't fit the service is named by its line, as `pamsess audit` does.
//!
//! Begin at program.rt, which has the program over any objects; explaining.rt has the explanation
//! of a report.
#![tactic(auto)]

mod explaining;
mod program;

ghost use Rattle.std.specs.Prelude.{◌≡◌, []};
ghost use Rattle.pam_outside.specs.Paths.{path_of};
ghost use Rattle.explain.specs.Program.{root_of};

use crate::program::explain_to;
use command_line::{arguments, exit_status};
use pam_outside::{Sink, Source};
use std::alloc::Global;
use std::io;
use std::process::ExitCode;
use system_objects::{FolderVault, ReaderSource, WriterSink};

fn main(rt: HostRuntime) -> ExitCode {
    ExitCode::from(exit_status(run(rt)))
}

// Makes the streams and the files, and calls the program with them, without arguments if one of them isn't UTF-8.
fn run(rt: HostRuntime) -> io::Result<u8> {
    let alloc = rt.alloc();
    let words = arguments(&rt)?.unwrap_or(Vec::new(alloc));
    let mut source = ReaderSource::new(rt.reader());
    let mut out = WriterSink::new(io::writer(&rt));
    let mut vault = FolderVault::below(rt, root_in(&words))?;
    Ok(explain_below(alloc, &words, &mut source, &mut out, &mut vault))
}

// Explains a report over files below the root that the arguments give: any others are refused.
fn explain_below<S: Source, K: Sink>(
    alloc: Global,
    words: &[String],
    source: &mut S,
    out: &mut K,
    vault: &mut FolderVault,
) -> u8
    requires below { vault.old.root ≡ path_of (root_of words.now) [] }
{
    explain_to(alloc, words, source, out, vault)
}

// The root, as pamsess takes it: links below it lead below it.
fn root_in(words: &[String]) -> &[u8]
    ensures { result.now ≡ root_of words.now }
{
    match words {
        [root, ..] => root.as_bytes(),
        _ => b"/",
    }
}
