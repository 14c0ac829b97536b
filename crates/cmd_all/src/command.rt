ghost use Rattle.std.specs.Prelude.{◌≡◌, false, IfNone, IfSome, string_bytes};
ghost use Rattle.cmd_all.specs.Command.{command_of, is_operand, is_service, is_target, is_user, lines_command, name_in, number_operand};
ghost use Rattle.cmd_all.specs.Asked.{IsTarget, asked};

use crate::operand::{GenerateArgs, Target};
use cmd_generate::random_config::MAX_RANDOM_LINES;
use cmd_tally::mod_tally::is_no_file;
use pam_base::{is_service_name, number_in};

/// What the arguments of the command line ask for.
#[derive(Clone, Copy)]
pub enum Command<'a> {
    /// The calls of a script, under this root.
    Run(&'a [u8]),
    /// The configuration of a service, under this root.
    Check(&'a [u8], &'a [u8]),
    /// A login under this root, with this service; the conversation asks for the user's name.
    Login(Target<'a>),
    /// A login of this user.
    LoginAs(Target<'a>, &'a [u8]),
    /// Lines generated from a seed.
    Generate(GenerateArgs),
    /// The failures of a user, under this root.
    Tally(&'a [u8], &'a [u8]),
    /// Whether a transcript fits a service, under this root.
    Audit(&'a [u8], &'a [u8]),
    /// The calls of a front end, under this root.
    Wire(&'a [u8]),
}

/// The commands, by their names.
#[derive(Clone, Copy)]
pub enum Name {
    Run,
    Check,
    Login,
    Generate,
    Tally,
    Audit,
    Wire,
}

/// What the arguments ask for; None if they are not a command.
pub fn command_in(words: &[String]) -> Option<Command<'_>>
    ensures { asked result ≡ command_of words.now }
{
    let (command, operands) = words.split_first()?;
    match (name_in(command)?, operands) {
        (Name::Run, [root]) if is_operand(root.as_bytes()) => Some(Command::Run(root.as_bytes())),
        (Name::Check, [root, service])
            if is_operand(root.as_bytes()) && is_service(service.as_bytes()) => {
            Some(Command::Check(root.as_bytes(), service.as_bytes()))
        }
        (Name::Login, [root, service]) => Some(Command::Login(target_in(root, service)?)),
        (Name::Login, [root, service, user]) if is_operand(user.as_bytes()) => Some(
            Command::LoginAs(target_in(root, service)?, user.as_bytes()),
        ),
        (Name::Generate, [seed, lines]) => lines_command(
            number_operand(seed.as_bytes()),
            number_operand(lines.as_bytes()),
        ),
        (Name::Tally, [root, user]) if is_operand(root.as_bytes()) && is_user(user.as_bytes()) => {
            Some(Command::Tally(root.as_bytes(), user.as_bytes()))
        }
        (Name::Audit, [root, service])
            if is_operand(root.as_bytes()) && is_service(service.as_bytes()) => {
            Some(Command::Audit(root.as_bytes(), service.as_bytes()))
        }
        (Name::Wire, [root]) if is_operand(root.as_bytes()) => Some(Command::Wire(root.as_bytes())),
        _ => None,
    }
}

fn name_in(command: &String) -> Option<Name>
    ensures { result ≡ name_in (string_bytes command.now) }
{
    match command.as_str() {
        "run" => Some(Name::Run),
        "check" => Some(Name::Check),
        "login" => Some(Name::Login),
        "generate" => Some(Name::Generate),
        "tally" => Some(Name::Tally),
        "audit" => Some(Name::Audit),
        "wire" => Some(Name::Wire),
        _ => None,
    }
}

fn target_in<'a>(root: &'a String, service: &'a String) -> Option<Target<'a>>
    ensures some { IfSome result (λ target. IsTarget target (string_bytes root.now)
        (string_bytes service.now)) }
    ensures none { IfNone result (is_target (string_bytes root.now) (string_bytes service.now)
        ≡ false) }
{
    let root = root.as_bytes();
    let service = service.as_bytes();
    if is_operand(root) && is_operand(service) && is_service_name(service) {
        Some(Target { root, service })
    } else {
        None
    }
}

fn lines_command<'a>(seed: Option<u32>, lines: Option<u32>) -> Option<Command<'a>>
    ensures { asked result ≡ lines_command seed lines }
{
    match (seed, lines) {
        (Some(seed), Some(lines)) if 1 <= lines && lines <= MAX_RANDOM_LINES => {
            Some(Command::Generate(GenerateArgs { seed, lines }))
        }
        _ => None,
    }
}

// The number that an argument of decimal digits without a leading zero spells.
fn number_operand(word: &[u8]) -> Option<u32>
    ensures { result ≡ number_operand word.now }
{
    match word {
        [b'0', _, ..] => None,
        digits => number_in(digits),
    }
}

// An argument that isn't empty and doesn't begin with a dash.
fn is_operand(word: &[u8]) -> bool
    ensures { result ≡ is_operand word.now }
{
    match word {
        [] => false,
        [first, ..] => *first != b'-',
    }
}

fn is_service(word: &[u8]) -> bool
    ensures { result ≡ is_service word.now }
{
    is_operand(word) && is_service_name(word)
}

// An argument that can be the name of a user's tally.
fn is_user(word: &[u8]) -> bool
    ensures { result ≡ is_user word.now }
{
    is_operand(word) && !is_no_file(word)
}
