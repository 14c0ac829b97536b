ghost use Rattle.std.specs.Prelude.{◌≡◌};
ghost use Rattle.script_lang.specs.Command.{command_of_word, command_word, places_of, word_of_call};

use crate::place::Form::{Item, Moment, Name, Number, Random, Service, Switch, Text};
use crate::place::Position::{self, Nothing, Optional, Wanted};
use pam_base::{ALL_CALLS, AppCall, CallName, Word, find_word};

/// A command of the script: a call of the application, or a setting.
#[derive(Clone, Copy, Debug, PartialEq, Eq)]
pub enum Command {
    Call(CallName),
    At,
    Random,
    Caller,
}

const SETTINGS: [Command; 3] = [Command::At, Command::Random, Command::Caller];

impl Word for Command {
    ghost spelling = { command_word };

    fn word(self) -> &'static str {
        match self {
            Command::Call(call) => call.word(),
            Command::At => "at",
            Command::Random => "random",
            Command::Caller => "caller",
        }
    }
}

impl Command {
    /// Which words may follow the command's: for a call, the transaction's number comes first.
    pub(crate) fn places(self) -> [Position; 3]
        ensures { result ≡ places_of self }
    {
        let number = Wanted(Number);
        match self {
            Command::Call(CallName::Start) => [number, Wanted(Service), Optional(Name)],
            Command::Call(CallName::End) => [number, number, Nothing],
            Command::Call(CallName::Run(_)) => [number, Optional(Number), Nothing],
            Command::Call(CallName::SetItem) => [number, Wanted(Item), Optional(Text)],
            Command::Call(CallName::GetItem) => [number, Wanted(Item), Nothing],
            Command::Call(CallName::PutEnv) => [number, Wanted(Text), Nothing],
            Command::Call(CallName::GetEnv) => [number, Wanted(Name), Nothing],
            Command::Call(CallName::EnvList) => [number, Nothing, Nothing],
            Command::Call(CallName::FailDelay) => [number, number, Nothing],
            Command::Call(CallName::DelayFn) => [number, Wanted(Switch), Nothing],
            Command::Call(CallName::Reply) => [number, Wanted(Text), Nothing],
            Command::At => [Wanted(Moment), Nothing, Nothing],
            Command::Random => [Wanted(Random), Nothing, Nothing],
            Command::Caller => [number, Nothing, Nothing],
        }
    }
}

/// The command that a word names; None if and only if it names none.
pub(crate) fn command_named(word: &[u8]) -> Option<Command>
    ensures { result ≡ command_of_word word.now }
{
    match find_word(&ALL_CALLS, word) {
        Some(call) => Some(Command::Call(call)),
        None => find_word(&SETTINGS, word),
    }
}

/// The word that scripts and reports use for a call.
pub fn call_word(call: &AppCall) -> &'static str
    ensures { result.now ≡ word_of_call call.now }
{
    call.name().word()
}
