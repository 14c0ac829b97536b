ghost use Rattle.std.specs.Prelude.{◌≡◌, ◌≤◌, ◌<◌, ◌+◌, ◌^◌, ◌↔◌, IfOk, drop, length};
ghost use Rattle.service_load.specs.Load.{AreBounded};
ghost use Rattle.pass_replay.specs.Retold.{stacks_in};
ghost use Rattle.report_lines.specs.Guess.{read_line};
ghost use Rattle.session_audit.specs.Checked.{bare_lines, line_of};
ghost use Rattle.session_audit.specs.Differs.{differs};
ghost use Rattle.session_audit.specs.Fits.{Fits};
ghost use Rattle.session_audit.specs.Whole.{lines_read};

use crate::checker::Checker;
use crate::laws::lines_audit;
use pam_base::{NoMemory, first_place};
use service_load::Trees;
use std::alloc::Global;

/// Whether a report fits the stacks of a service.
#[derive(Clone, Copy, Debug, PartialEq, Eq)]
pub enum Verdict {
    Fits,
    /// The report doesn't fit: this is the first line, from 1, that differs.
    Differs { line: u32 },
}

/// Checks a report of at most 1,048,576 bytes against the stacks of a service. It fits if it is the
/// text of blocks, the lines of one step each, and each block can come after those before it. A
/// stack call can come if its stack, walked with the return codes in the block, runs exactly the
/// lines of the block, and returns its code. Messages, cleanups, delays, notes and values are only
/// checked for their format.
///
/// The line that is named is one of the first block that doesn't fit: its first line that has none
/// of the forms or belongs to another transaction; the line after the last one of the text, if the
/// text ends inside the block; its first `line` line that isn't the next one of the call; else its
/// last line.
///
/// Fails only if an allocation fails. The time is linear in the length of the text and in the lines
/// of the stacks that its calls walk, counting each call.
pub fn audit(alloc: Global, trees: &Trees, text: &[u8]) -> Result<Verdict, NoMemory>
    requires bounded { AreBounded trees.now }
    requires short { length text.now ≤ 2 ^ 20 }
    ensures line { IfOk result (λ verdict. line_of verdict
        ≡ differs (stacks_in trees.now) (lines_read read_line text.now)) }
    ensures fits { IfOk result (λ verdict. verdict ≡ Verdict.Fits
        ↔ Fits (stacks_in trees.now) text.now) }
{
    lines_audit();
    let verdict = verdict_of(alloc, trees, text)?;
    Ok(verdict)
}

fn verdict_of(alloc: Global, trees: &Trees, text: &[u8]) -> Result<Verdict, NoMemory>
    requires bounded { AreBounded trees.now }
    requires short { length text.now ≤ 2 ^ 20 }
    ensures { IfOk result (λ verdict. line_of verdict
        ≡ differs (stacks_in trees.now) (bare_lines text.now)) }
{
    let mut checker = Checker::new(alloc)?;
    let mut rest = text;
    while let Some(n) = first_place(b'\n', rest) {
        let after = after_newline(rest, n);
        let named = checker.take_line(alloc, trees, &rest[..n], after.is_empty())?;
        if let Some(line) = named {
            return Ok(Verdict::Differs { line });
        }
        rest = after;
    }
    Ok(checker.end(rest.is_empty()))
}

fn after_newline(text: &[u8], n: usize) -> &[u8]
    requires { n < length text.now }
    ensures { result.now ≡ drop (n + 1) text.now }
{
    &text[n + 1..]
}
