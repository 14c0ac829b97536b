ghost use Rattle.std.specs.Prelude.{◌≡◌, IfOk, false, map};
ghost use Rattle.service_load.specs.Answers.{Answers};
ghost use Rattle.service_load.specs.Entry.{entry_of_tokens, after_type, file_field, rule_of, named_file};
ghost use Rattle.service_load.specs.Kinds.{IfNamed, is_read_failed};
ghost use Rattle.service_load.specs.Tree.{serves};

use crate::names::IN_DIRECTORY;
use crate::rule_type::RuleType;
use crate::type_field::{TypeField, is_word};
use control_words::conf_lex::Token;
use control_words::{Control, Rule, control_of};
use pam_base::{FaultKind, NoMemory, Refuse, Sequence, SharedText, Text, Texts};
use pam_outside::joined;
use std::alloc::Global;

/// What a rule adds to a stack.
#[derive(Debug, Drop)]
pub enum RuleContent {
    /// A line of its own.
    Line(Rule),
    /// The nodes of the file with this name.
    Include(Text),
    /// The nodes of the file with this name, as a substack.
    Substack(Text),
}

/// A rule as it is read.
#[derive(Debug, Drop)]
pub struct ConfigEntry {
    /// The number of its first physical line, from 1.
    pub line: u32,
    /// Its type; None if it is for all four types, as `@include` is.
    pub rule_type: Option<RuleType>,
    pub content: RuleContent,
}

/// What the rules of a file say, in order.
pub(crate) type Entries = Sequence<ConfigEntry>;

impl ConfigEntry {
    /// What the tokens of a rule in this line say, in a file of `/etc/pam.d` or, after its service,
    /// in `pam.conf(5)`; or the fault of the first field that is wrong.
    pub(crate) fn of(
        alloc: Global,
        line: u32,
        in_directory: bool,
        tokens: &[Token],
    ) -> Result<ConfigEntry, Refuse<FaultKind>>
        ensures answer { Answers result (entry_of_tokens line in_directory tokens.now) }
        ensures kinds { IfNamed result (λ kind. is_read_failed kind ≡ false) }
    {
        let [first, rest @ ..] = tokens else {
            return Err(Refuse::Named(FaultKind::MissingField));
        };
        if in_directory && is_word(b"@include", first) {
            let name = file_field(alloc, rest)?;
            return Ok(ConfigEntry {
                line,
                rule_type: None,
                content: RuleContent::Include(name),
            });
        }
        match TypeField::of(first) {
            Some(field) => Ok(ConfigEntry {
                line,
                rule_type: Some(field.rule_type),
                content: content_of(alloc, field.silent, rest)?,
            }),
            None => Err(Refuse::Named(FaultKind::BadType)),
        }
    }

    /// Whether it is for the stack of this type.
    pub(crate) fn serves(&self, rule_type: RuleType) -> bool
        ensures { result ≡ serves rule_type self.now.rule_type }
    {
        match self.rule_type {
            Some(own) => own == rule_type,
            None => true,
        }
    }

    pub(crate) fn copied(&self, alloc: Global) -> Result<ConfigEntry, NoMemory>
        ensures { IfOk result (λ copy. copy ≡ self.now) }
    {
        Ok(ConfigEntry {
            line: self.line,
            rule_type: self.rule_type,
            content: self.content.copied(alloc)?,
        })
    }
}

impl RuleContent {
    fn copied(&self, alloc: Global) -> Result<RuleContent, NoMemory>
        ensures { IfOk result (λ copy. copy ≡ self.now) }
    {
        match self {
            RuleContent::Line(rule) => Ok(RuleContent::Line(rule.copied(alloc)?)),
            RuleContent::Include(name) => Ok(RuleContent::Include(Text::from_bytes(
                alloc,
                name.bytes(),
            )?)),
            RuleContent::Substack(name) => {
                Ok(RuleContent::Substack(Text::from_bytes(alloc, name.bytes())?))
            }
        }
    }
}

// What follows the type.
fn content_of(
    alloc: Global,
    silent: bool,
    tokens: &[Token],
) -> Result<RuleContent, Refuse<FaultKind>>
    ensures answer { Answers result (after_type silent tokens.now) }
    ensures kinds { IfNamed result (λ kind. is_read_failed kind ≡ false) }
{
    let [first, rest @ ..] = tokens else {
        return Err(Refuse::Named(FaultKind::MissingField));
    };
    if is_word(b"include", first) {
        return Ok(RuleContent::Include(file_field(alloc, rest)?));
    }
    if is_word(b"substack", first) {
        return Ok(RuleContent::Substack(file_field(alloc, rest)?));
    }
    match control_of(first) {
        Ok(control) => Ok(RuleContent::Line(rule_of(alloc, silent, control, rest)?)),
        Err(fault) => Err(Refuse::Named(fault.kind)),
    }
}

// The name of a file.
fn file_field(alloc: Global, tokens: &[Token]) -> Result<Text, Refuse<FaultKind>>
    ensures answer { Answers result (file_field tokens.now) }
    ensures kinds { IfNamed result (λ kind. is_read_failed kind ≡ false) }
{
    match tokens {
        [] => Err(Refuse::Named(FaultKind::MissingField)),
        [name, ..] => Ok(named_file(alloc, name.text.bytes())?),
    }
}

/// The path that a rule means by the name of a file: the name itself if it begins with a slash,
/// otherwise that of the file in `/etc/pam.d` (`pam.conf(5)`). `NoMemory` is returned if an
/// allocation fails.
pub fn named_file(alloc: Global, name: &[u8]) -> Result<Text, NoMemory>
    ensures { IfOk result (λ file. file ≡ named_file name.now) }
{
    match name {
        [b'/', ..] => Text::from_bytes(alloc, name),
        _ => joined(alloc, IN_DIRECTORY, name),
    }
}

// The module's path and its arguments.
fn rule_of(
    alloc: Global,
    silent: bool,
    control: Control,
    tokens: &[Token],
) -> Result<Rule, Refuse<FaultKind>>
    ensures answer { Answers result (rule_of silent control tokens.now) }
    ensures kinds { IfNamed result (λ kind. is_read_failed kind ≡ false) }
{
    let [path, args @ ..] = tokens else {
        return Err(Refuse::Named(FaultKind::MissingField));
    };
    Ok(Rule {
        silent,
        control,
        path: SharedText::from_bytes(alloc, path.text.bytes())?,
        args: texts_of(alloc, args)?,
    })
}

fn texts_of(alloc: Global, tokens: &[Token]) -> Result<Texts, NoMemory>
    ensures { IfOk result (λ texts. texts ≡ map (λ t. t.text) tokens.now) }
{
    let mut texts = Texts::new(alloc);
    for token in tokens {
        texts.push(Text::from_bytes(alloc, token.text.bytes())?)?;
    }
    Ok(texts)
}
