ghost use Rattle.std.specs.Prelude.{◌≡◌};
ghost use Rattle.report_lines.specs.Line.{command_word};
ghost use Rattle.report_lines.specs.Form.{command_of};
ghost use Rattle.report_lines.specs.Words.{guessed_code, guessed_command, guessed_fault, guessed_func, guessed_script_fault, guessed_style};

use pam_base::{
    ALL_CALLS, ALL_FUNCS, CallName, Code, FaultKind, Func, ScriptKind, Style, Word, code_named,
    find_word,
};

const ALL_STYLES: [Style; 4] = [
    Style::EchoOff,
    Style::EchoOn,
    Style::ErrorMsg,
    Style::TextInfo,
];

const ALL_FAULTS: [FaultKind; 16] = [
    FaultKind::OpenBracket,
    FaultKind::NulByte,
    FaultKind::RuleTooLong,
    FaultKind::FileTooLong,
    FaultKind::BadControl,
    FaultKind::BadReturnName,
    FaultKind::BadAction,
    FaultKind::ZeroJump,
    FaultKind::BadType,
    FaultKind::MissingField,
    FaultKind::IncludeAbsent,
    FaultKind::TooDeep,
    FaultKind::TooManyLines,
    FaultKind::TooManyFiles,
    FaultKind::NoService,
    FaultKind::ReadFailed,
];

const ALL_SCRIPT_FAULTS: [ScriptKind; 4] = [
    ScriptKind::BadWord,
    ScriptKind::BadNumeral,
    ScriptKind::LineTooLong,
    ScriptKind::TooManyLines,
];

/// The code that a word may name.
pub fn code_in(word: &[u8]) -> Code
    ensures { result ≡ guessed_code word.now }
{
    code_named(word).unwrap_or(Code::Success)
}

/// The style that a number may mean.
pub fn style_in(number: u64) -> Style
    ensures { result ≡ guessed_style number }
{
    ALL_STYLES
        .iter()
        .copied()
        .find(|style| u64::from(style.number()) == number)
        .unwrap_or(Style::TextInfo)
}

/// The fault of a configuration that a word may name.
pub fn fault_in(word: &[u8]) -> FaultKind
    ensures { result ≡ guessed_fault word.now }
{
    find_word(&ALL_FAULTS, word).unwrap_or(FaultKind::ReadFailed)
}

/// The fault of a script that a word may name.
pub fn script_fault_in(word: &[u8]) -> ScriptKind
    ensures { result ≡ guessed_script_fault word.now }
{
    find_word(&ALL_SCRIPT_FAULTS, word).unwrap_or(ScriptKind::BadWord)
}

/// The function of the modules that a word may name.
pub fn func_in(word: &[u8]) -> Func
    ensures { result ≡ guessed_func word.now }
{
    find_word(&ALL_FUNCS, word).unwrap_or(Func::Authenticate)
}

/// The command that a word may name.
pub fn command_in(word: &[u8]) -> CallName
    ensures { command_of result ≡ guessed_command word.now }
{
    find_word(&ALL_CALLS, word).unwrap_or(CallName::Start)
}

/// The word of a command.
pub fn command_word(command: CallName) -> &'static str
    ensures { result.now ≡ command_word (command_of command) }
{
    command.word()
}
