ghost use Rattle.std.specs.Prelude.{◌≡◌, ◌<◌, ◌^◌, ◌≤◌, ◌+◌, ◌-◌, ◌*◌, ◌++◌, ℕ, [], if◌then◌else◌, min, length, string_bytes, IfOk, OnOk};
ghost use Rattle.random_config.specs.Generator.{state_after};
ghost use Rattle.random_config.specs.Files.{count_of, random_file, random_files, is_odd, name_of, service, substack_line};

use crate::generator::Generator;
use crate::line::push_lines;
use pam_base::{NoMemory, Text};
use std::alloc::Global;

/// The maximum number of lines.
pub const MAX_RANDOM_LINES: u32 = 4096;

/// How many lines a file has, except the last one.
const LINES_OF_FILE: u32 = 32;

/// A service file: its name in the directory of services, and its text.
#[derive(Debug, Drop)]
pub struct RandomFile {
    pub name: Text,
    pub text: Text,
}

/// How many files n lines need.
pub fn file_count(lines: u32) -> u32
    requires { lines ≤ MAX_RANDOM_LINES }
    ensures { result ≡ count_of lines }
{
    lines.div_ceil(LINES_OF_FILE)
}

/// The files of n lines that a seed gives, in order, and after them the service `gen`.
pub fn random_files(alloc: Global, seed: u32, lines: u32) -> Result<Vec<RandomFile>, NoMemory>
    requires { lines ≤ MAX_RANDOM_LINES }
    ensures { IfOk result (λ files. files.items ≡ random_files seed lines) }
{
    let mut generator = Generator { state: seed };
    let mut files = Vec::new(alloc);
    for number in 1..file_count(lines) + 1 {
        files.push(random_file(alloc, &mut generator, number, lines)?)?;
    }
    files.push(service(alloc, file_count(lines))?)?;
    Ok(files)
}

// The file with this number, from 1.
fn random_file(
    alloc: Global,
    generator: &mut Generator,
    number: u32,
    lines: u32,
) -> Result<RandomFile, NoMemory>
    requires few { lines ≤ MAX_RANDOM_LINES }
    requires first { 1 ≤ number }
    requires last { number ≤ count_of lines }
    ensures { IfOk result (λ file. (seed : ℕ) →
        generator.old.state ≡ state_after seed (3 * min (32 * (number - 1)) lines) →
        (file ≡ random_file seed lines number)
        × (generator.new.state ≡ state_after seed (3 * min (32 * number) lines))) }
{
    let before = LINES_OF_FILE * (number - 1);
    let past_end = lines.min(LINES_OF_FILE * number);
    let mut text = String::new(alloc);
    push_lines(&mut text, generator, past_end - before)?;
    let leads_on = is_odd(number) && number < file_count(lines);
    push_substack(&mut text, leads_on, number + 1)?;
    Ok(RandomFile {
        name: name_of(alloc, number)?,
        text: Text::from_vec(text.into_bytes()),
    })
}

// The service, which has each odd file as a substack.
fn service(alloc: Global, count: u32) -> Result<RandomFile, NoMemory>
    requires { count < 2 ^ 31 }
    ensures { IfOk result (λ file. file ≡ service count) }
{
    let mut text = String::new(alloc);
    for number in 1..count + 1 {
        push_substack(&mut text, is_odd(number), number)?;
    }
    Ok(RandomFile {
        name: Text::from_bytes(alloc, b"gen")?,
        text: Text::from_vec(text.into_bytes()),
    })
}

fn is_odd(number: u32) -> bool
    ensures { result ≡ is_odd number }
{
    number % 2 == 1
}

fn name_of(alloc: Global, number: u32) -> Result<Text, NoMemory>
    ensures { IfOk result (λ name. name ≡ name_of number) }
{
    let name = format!(in alloc; "gen.{number}")?;
    Ok(Text::from_vec(name.into_bytes()))
}

// Adds a file as a substack, if it is one.
fn push_substack(text: &mut String, is_one: bool, number: u32) -> Result<(), NoMemory>
    ensures { OnOk result (string_bytes text.new ≡ string_bytes text.old
        ++ (if is_one then substack_line number else [])) }
{
    if is_one {
        write!(text, "auth substack gen.{number}\n")?;
    }
    Ok(())
}
