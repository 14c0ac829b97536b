ghost use Rattle.std.specs.Prelude.{◌≡◌, ℕ, ◌<◌, ◌↔◌, All, List, length, Err, Ok, IfOk};
ghost use Rattle.pam_base.specs.declared.fault.Refuse.TheVariants as refusals;
ghost use Rattle.pam_base.specs.declared.fault.FaultKind.TheVariants as kinds;
ghost use Rattle.conf_lex.specs.declared.token.LexFault.{LexFault};
ghost use Rattle.conf_lex.specs.declared.token.RawRule.{RawRule};
ghost use Rattle.conf_lex.specs.Rules.{Spells, HasNoFault, IsFirstFault, HasNul};
ghost use Rattle.conf_lex.specs.Lexing.{Gives, IfNamed};
ghost use Rattle.conf_lex.specs.Answer.{answer_to};

use crate::lexer::Lexer;
use crate::token::{LexFault, RawRules};
use pam_base::{FaultKind, Refuse};
use std::alloc::Global;

/// The maximum length of a text in bytes.
const MAX_TEXT: usize = 65536;

/// Returns the rules of a service file's text (`pam.conf(5)`; libpam: `_pam_parse_conf_file`,
/// `_pam_assemble_line`), or its first fault. A text with a fault has no rules.
///
/// White space is a space, a tab or a carriage return, and a backslash before a line's end joins
/// the next line. The faults are looked for in this order: `FileTooLong` at line 0, if the text has
/// more than 65,536 bytes; `NulByte` at the physical line of the first NUL byte; then for each
/// joined line, at its first physical line, `RuleTooLong`, if it has more than 4,096 bytes before
/// its ending newline, comments and joins included, and `OpenBracket`, if a bracket is still open
/// at its end.
///
/// If an allocation fails, NoMemory is returned; but a text that is too long or has a NUL byte is
/// refused for that even then.
///
/// Each byte is read a bounded number of times, so the time is linear in the length of the text: a
/// run of plain bytes is scanned and then copied, and a join is looked for ahead. After a line with
/// a fault only a NUL byte is searched for.
pub fn rules(alloc: Global, text: &[u8]) -> Result<RawRules, Refuse<LexFault>>
    ensures read { IfOk result (λ rules. HasNoFault text.now × Spells text.now rules) }
    ensures tokens { IfOk result (λ rules. All (λ rule. 0 < length rule.tokens) rules) }
    // If some rules spell the text, they are returned, unless an allocation fails.
    ensures spelled { (rules : List RawRule) → HasNoFault text.now → Spells text.now rules →
        Gives result (Ok rules) }
    ensures fault { IfNamed result (λ fault. IsFirstFault text.now fault) }
    // If the text has a first fault, it is returned, unless an allocation fails.
    ensures first { (fault : LexFault) → IsFirstFault text.now fault → Gives result (Err fault) }
    ensures whole { Gives result (answer_to text.now) }
    ensures file_too_long { (result ≡ Err (refusals.Named
        (record { line = 0; kind = kinds.FileTooLong }))) ↔
        (65536 < length text.now) }
    ensures nul_byte { (line : ℕ) →
        (result ≡ Err (refusals.Named (record { line = line; kind = kinds.NulByte }))) ↔
        HasNul text.now line }
{
    if text.len() > MAX_TEXT {
        return Err(Refuse::Named(LexFault {
            line: 0,
            kind: FaultKind::FileTooLong,
        }));
    }
    let mut lexer = Lexer {
        rest: text,
        line: 1,
    };
    let answer = lexer.rules(alloc);
    match lexer.nul_line() {
        Some(line) => Err(Refuse::Named(LexFault {
            line,
            kind: FaultKind::NulByte,
        })),
        None => answer,
    }
}
