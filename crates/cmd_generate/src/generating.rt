ghost use Rattle.std.specs.Prelude.{◌≡◌, ◌≤◌, IfOk};
ghost use Rattle.pam_base.specs.Code.{number_of};
ghost use Rattle.cmd_run.specs.record_reader.specs.Object.{object_of};
ghost use Rattle.cmd_run.specs.Seen.{IsIdle};
ghost use Rattle.cmd_generate.specs.Generated.{AttemptStops, FindsOrStops, IsEndOfFinding, IsFound, IsGenerated, attempted, generated_text, generation};
ghost use Rattle.cmd_generate.specs.Login.{ComesTo, IsEndWith, IsOver, end_status};

use crate::login::{Login, log_in};
use crate::place::set_process;
use crate::placing::place_in_world;
use cmd_run::pam_library::{Library, Session, Told};
use cmd_run::pam_room::World;
use cmd_run::record_reader::Stop;
use cmd_run::report_step::refused_report;
use pam_base::{Failed, NoMemory, Refuse, Text, code_name, code_number};
use pam_outside::{Sink, write_all};
use random_config::{MAX_RANDOM_LINES, file_count, random_files};
use service_load::LoadFault;
use std::alloc::Global;

/// The result of a generation.
#[derive(Clone, Copy, Debug, PartialEq, Eq)]
pub enum Generated {
    /// The files are stored, and the result of the authentication was written.
    Written,
    /// A file couldn't be stored, or the service is refused, and the fault was written.
    Refused,
}

// The result, and the text that is written for it.
#[derive(Drop)]
struct Finding {
    generated: Generated,
    text: Text,
}

/// Generates service files of n lines from a seed, stores them under the root `/`, authenticates joe with the service
/// `gen` in transaction 1, and writes one line: `generated LINES files K code NAME NUMBER visited COUNT`, where COUNT
/// is the number of lines that the authentication ran. If a file can't be stored, or the configuration is refused,
/// the line of that fault is written, and no file is stored after it.
///
/// The process belongs to nobody. The line is complete before its first byte is written. The transaction is ended
/// before that, with SUCCESS, or with BUF_ERR if an allocation failed, so none is open afterwards, whatever is
/// returned.
pub fn generate<K: Sink>(
    alloc: Global,
    library: &mut Library,
    seed: u32,
    lines: u32,
    out: &mut K,
    world: &mut World,
) -> Result<Generated, Stop>
    requires few { lines ≤ MAX_RANDOM_LINES }
    requires idle { IsIdle (⟦<Session as Told>⟧.seen library.old world.old) }
    ensures { let seen = ⟦<Session as Told>⟧.seen in
        IsGenerated seed lines result (seen library.old world.old) (seen library.new world.new)
        (object_of K.sink_tells K.sink_holds K.sink_faults out.old out.new) }
{
    match find(alloc, library, seed, lines, world) {
        Err(NoMemory) => Err(Stop::NoMemory),
        Ok(finding) => match write_all(out, finding.text.bytes()) {
            Ok(()) => Ok(finding.generated),
            Err(Failed) => Err(Stop::WriteFault),
        },
    }
}

fn find(
    alloc: Global,
    library: &mut Library,
    seed: u32,
    lines: u32,
    world: &mut World,
) -> Result<Finding, NoMemory>
    requires few { lines ≤ MAX_RANDOM_LINES }
    requires idle { IsIdle (⟦<Session as Told>⟧.seen library.old world.old) }
    ensures { let seen = ⟦<Session as Told>⟧.seen in
        IsOver (λ setting before. FindsOrStops result (generation setting seed lines before))
        (IsEndOfFinding result) (seen library.old world.old) (seen library.new world.new) }
{
    let login = attempt(alloc, library, seed, lines, world);
    describe(alloc, lines, login)
}

// Stores the files, and authenticates with them.
fn attempt(
    alloc: Global,
    library: &mut Library,
    seed: u32,
    lines: u32,
    world: &mut World,
) -> Result<Login, Refuse<LoadFault>>
    requires few { lines ≤ MAX_RANDOM_LINES }
    requires idle { IsIdle (⟦<Session as Told>⟧.seen library.old world.old) }
    ensures { let seen = ⟦<Session as Told>⟧.seen in
        IsOver (λ setting before. ComesTo result (attempted setting seed lines before)
        (AttemptStops setting seed lines before)) (IsEndWith (number_of (end_status result)))
        (seen library.old world.old) (seen library.new world.new) }
{
    set_process(alloc, world)?;
    let files = random_files(alloc, seed, lines)?;
    match place_in_world(alloc, &files, world) {
        Err(refuse) => Err(refuse),
        Ok(()) => log_in(alloc, library, world),
    }
}

// The result of an attempt, and the text that is written for it.
fn describe(
    alloc: Global,
    lines: u32,
    login: Result<Login, Refuse<LoadFault>>,
) -> Result<Finding, NoMemory>
    requires { lines ≤ MAX_RANDOM_LINES }
    ensures found { IfOk result (λ finding. IsFound finding lines login) }
{
    match login {
        Ok(login) => Ok(Finding {
            generated: Generated::Written,
            text: generated_line(alloc, lines, login)?,
        }),
        Err(Refuse::Named(fault)) => Ok(Finding {
            generated: Generated::Refused,
            text: Text::from_vec(refused_report(alloc, &fault)?.into_bytes()),
        }),
        Err(Refuse::NoMemory) => Err(NoMemory),
    }
}

fn generated_line(alloc: Global, lines: u32, login: Login) -> Result<Text, NoMemory>
    requires { lines ≤ MAX_RANDOM_LINES }
    ensures { IfOk result (λ text. text ≡ generated_text lines login) }
{
    let files = file_count(lines);
    let name = code_name(login.code);
    let number = code_number(login.code);
    let visited = login.visited;
    let text = format!(in alloc;
        "generated {lines} files {files} code {name} {number} visited {visited}\n"
    )?;
    Ok(Text::from_vec(text.into_bytes()))
}
