ghost use Rattle.std.specs.Prelude.{◌≡◌, IfOk};
ghost use Rattle.service_print.specs.Printed.{numbered, rule_line, substack_line, type_field};

use crate::control::add_control;
use crate::token::add_token;
use control_words::Rule;
use pam_base::{NoMemory, Word};
use service_load::RuleType;
use std::alloc::Global;

/// The line of a rule, without its end.
pub fn rule_line(alloc: Global, rule_type: RuleType, rule: &Rule) -> Result<Vec<u8>, NoMemory>
    ensures { IfOk result (λ line. line.items ≡ rule_line rule_type rule.now) }
{
    let mut line = type_field(alloc, rule.silent, rule_type)?;
    line.push(b' ')?;
    add_control(alloc, &rule.control, &mut line)?;
    line.push(b' ')?;
    add_token(rule.path.bytes(), &mut line)?;
    for arg in rule.args.items() {
        line.push(b' ')?;
        add_token(arg.bytes(), &mut line)?;
    }
    Ok(line)
}

// A `-` suppresses the note about a missing module.
fn type_field(alloc: Global, silent: bool, rule_type: RuleType) -> Result<Vec<u8>, NoMemory>
    ensures { IfOk result (λ field. field.items ≡ type_field silent rule_type) }
{
    let mut field = Vec::new(alloc);
    if silent {
        field.push(b'-')?;
    }
    field.extend_from_slice(rule_type.word().as_bytes())?;
    Ok(field)
}

/// The line of a substack whose nodes are in this file, without its end.
pub fn substack_line(alloc: Global, rule_type: RuleType, name: &[u8]) -> Result<Vec<u8>, NoMemory>
    ensures { IfOk result (λ line. line.items ≡ substack_line rule_type name.now) }
{
    let mut line = Vec::from_slice(alloc, rule_type.word().as_bytes())?;
    line.extend_from_slice(b" substack ")?;
    line.extend_from_slice(name)?;
    Ok(line)
}

/// The name of the file of a substack.
pub fn numbered(alloc: Global, service: &[u8], number: usize) -> Result<Vec<u8>, NoMemory>
    ensures { IfOk result (λ name. name.items ≡ numbered service.now number) }
{
    let mut name = Vec::from_slice(alloc, service)?;
    name.extend_from_slice(format!(in alloc; ".{number}")?.as_bytes())?;
    Ok(name)
}
