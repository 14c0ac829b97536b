ghost use Rattle.std.specs.Prelude.{◌≡◌, ◌∷◌, ◌&&◌, Bool, IfOk, codes};
ghost use Rattle.explain_origins.specs.Reading.{is_type, step_by, step_from, step_to};
ghost use Rattle.service_load.specs.Entry.{after_type, entry_of_tokens, file_field};
ghost use Rattle.service_load.specs.RuleType.{is_word, type_field_of, type_field_of_word};

use control_words::conf_lex::Token;
use control_words::control_of;
use pam_base::{NoMemory, Text};
use service_load::{RuleType, is_word, named_file};
use std::alloc::Global;

/// What a rule adds to a stack.
#[derive(Drop)]
pub enum Step {
    Nothing,
    /// A line of its own, for the rule that begins in this line of its file.
    Line(u32),
    /// The nodes of the file with this name, or a substack of them.
    File { name: Text, as_substack: bool },
}

/// What the tokens of a rule in this line add to the stack of a type, in a file of `/etc/pam.d` or,
/// after its service, in `pam.conf(5)`.
pub fn step_of(
    alloc: Global,
    rule_type: RuleType,
    line: u32,
    in_directory: bool,
    tokens: &[Token],
) -> Result<Step, NoMemory>
    ensures { IfOk result (λ step.
        step ≡ step_by rule_type (entry_of_tokens line in_directory tokens.now)) }
{
    match tokens {
        [] => Ok(Step::Nothing),
        [first, rest @ ..] => step_by_type(alloc, rule_type, line, in_directory, first, rest),
    }
}

// What a rule adds, by its first token.
fn step_by_type(
    alloc: Global,
    rule_type: RuleType,
    line: u32,
    in_directory: bool,
    first: &Token,
    rest: &[Token],
) -> Result<Step, NoMemory>
    ensures { IfOk result (λ step. step
        ≡ step_by rule_type (entry_of_tokens line in_directory (first.now ∷ rest.now))) }
{
    if is_include(in_directory, first) {
        return step_to(alloc, rest, false);
    }
    if is_field_of(rule_type, first) {
        return step_after_type(alloc, line, rest);
    }
    Ok(Step::Nothing)
}

fn is_include(in_directory: bool, token: &Token) -> bool
    ensures { result ≡ (in_directory && is_word (codes "@include") token.now) }
{
    in_directory && is_word(b"@include", token)
}

// What follows the type.
fn step_after_type(alloc: Global, line: u32, tokens: &[Token]) -> Result<Step, NoMemory>
    ensures { IfOk result (λ step. (silent : Bool) →
        step ≡ step_from line (after_type silent tokens.now)) }
{
    let [first, rest @ ..] = tokens else {
        return Ok(Step::Nothing);
    };
    if is_word(b"include", first) {
        return step_to(alloc, rest, false);
    }
    if is_word(b"substack", first) {
        return step_to(alloc, rest, true);
    }
    match (control_of(first), rest) {
        (Ok(_), [_, ..]) => Ok(Step::Line(line)),
        _ => Ok(Step::Nothing),
    }
}

// The field that names a file.
fn step_to(alloc: Global, tokens: &[Token], as_substack: bool) -> Result<Step, NoMemory>
    ensures { IfOk result (λ step. step ≡ step_to as_substack (file_field tokens.now)) }
{
    match tokens {
        [] => Ok(Step::Nothing),
        [name, ..] => Ok(Step::File {
            name: named_file(alloc, name.text.bytes())?,
            as_substack,
        }),
    }
}

// Whether a token is the field of this type.
fn is_field_of(rule_type: RuleType, token: &Token) -> bool
    ensures { result ≡ is_type rule_type (type_field_of token.now) }
{
    if token.bracketed {
        return false;
    }
    is_type_field(rule_type, token.text.bytes())
}

fn is_type_field(rule_type: RuleType, word: &[u8]) -> bool
    ensures { result ≡ is_type rule_type (type_field_of_word word.now) }
{
    let own = match word {
        [b'-', name @ ..] => RuleType::named(name),
        _ => RuleType::named(word),
    };
    match own {
        Some(own) => own == rule_type,
        None => false,
    }
}
