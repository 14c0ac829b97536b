//! `ways ROOT SERVICE < TABLE`: who gets in. For each of the four stacks of a service below ROOT
//! its rules, and the ways in which it may end: the code, and the rules that must have said yes.
//! The table says what each module may return.
//!
//! Begin at program.rt, which has the program over any objects; saying.rt has what is written of a
//! service.
#![tactic(auto)]

mod program;
mod saying;

ghost use Rattle.std.specs.Prelude.{◌≡◌, []};
ghost use Rattle.pam_outside.specs.Paths.{path_of};
ghost use Rattle.ways.specs.Program.{root_of};

use crate::program::ways_to;
use command_line::{arguments, exit_status};
use pam_outside::{Sink, Source};
use std::alloc::Global;
use std::io;
use std::process::ExitCode;
use system_objects::{FolderVault, ReaderSource, WriterSink};

fn main(rt: HostRuntime) -> ExitCode {
    ExitCode::from(exit_status(run(rt)))
}

// Makes the streams and the files, and calls the program with them, without arguments if one of
// them isn't UTF-8.
fn run(rt: HostRuntime) -> io::Result<u8> {
    let alloc = rt.alloc();
    let words = arguments(&rt)?.unwrap_or(Vec::new(alloc));
    let mut source = ReaderSource::new(rt.reader());
    let mut out = WriterSink::new(io::writer(&rt));
    let mut vault = FolderVault::below(rt, root_in(&words))?;
    Ok(ways_below(alloc, &words, &mut source, &mut out, &mut vault))
}

// Says what follows from the files below the root that the arguments give: any others are refused.
fn ways_below<S: Source, K: Sink>(
    alloc: Global,
    words: &[String],
    source: &mut S,
    out: &mut K,
    vault: &mut FolderVault,
) -> u8
    requires below { vault.old.root ≡ path_of (root_of words.now) [] }
{
    ways_to(alloc, words, source, out, vault)
}

// The root, as pamsess takes it: links below it lead below it.
fn root_in(words: &[String]) -> &[u8]
    ensures { result.now ≡ root_of words.now }
{
    match words {
        [root, ..] => root.as_bytes(),
        _ => b"/",
    }
}
