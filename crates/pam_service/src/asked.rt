ghost use Rattle.std.specs.Prelude.{◌≡◌, IfOk};
ghost use Rattle.cmd_all.specs.Command.{command_of};
ghost use Rattle.who_calls.specs.Request.{service_request};
ghost use Rattle.frame_service.specs.Service.{IsOfFrames};
ghost use Rattle.pam_service.specs.Service.{asked_command, caller_in, root_in};

use frame_service::{NOBODY, no_words, wire_words};
use pam_base::{NoMemory, Text};
use std::alloc::Global;
use std::io::{self, ErrorKind};
use who_calls::request_in;

/// What the program is called with.
#[derive(Drop)]
pub struct Invocation {
    /// Its arguments: `wire ROOT`, or none; then only the usage line is written.
    pub words: Vec<String>,
    /// The directory that files are under; empty without a command.
    pub root: Text,
    /// The user ID that calls are made for.
    pub caller: u32,
}

/// What these arguments ask of a process with this `/proc/self/status`.
pub fn asked_of(alloc: Global, words: &[String], status: &Text) -> io::Result<Invocation>
    ensures request { IfOk result (λ asked. command_of asked.words.items
        ≡ asked_command (service_request status.now words.now)) }
    ensures root { IfOk result (λ asked. asked.root
        ≡ root_in (service_request status.now words.now)) }
    ensures caller { IfOk result (λ asked. asked.caller
        ≡ caller_in (service_request status.now words.now)) }
    ensures frames { IfOk result (λ asked. IsOfFrames (command_of asked.words.items)) }
{
    match request_in(words, status.bytes()) {
        Some(request) => Ok(Invocation {
            words: wire_words(alloc, request.root)?,
            root: text_of(alloc, request.root)?,
            caller: request.caller,
        }),
        None => Ok(Invocation {
            words: no_words(alloc),
            root: Text::new(alloc),
            caller: NOBODY,
        }),
    }
}

fn text_of(alloc: Global, words: &str) -> io::Result<Text>
    ensures { IfOk result (λ text. text ≡ words.now) }
{
    match Text::from_bytes(alloc, words.as_bytes()) {
        Ok(text) => Ok(text),
        Err(NoMemory) => Err(ErrorKind::OutOfMemory.into()),
    }
}
