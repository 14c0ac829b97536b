ghost use Rattle.std.specs.Prelude.{◌≡◌, IfOk, Some, string_bytes};
ghost use Rattle.report_lines.specs.Line.{last_text, script_text, unread};

use pam_base::{NoMemory, ScriptKind, Word};
use std::alloc::Global;

/// The last line of a run whose script couldn't be read to its end, with its newline.
pub fn read_fault_line() -> &'static str
    ensures { result.now ≡ last_text (Some unread) }
{
    "read fault\n"
}

/// The last line of a run whose script is refused at this line, counted from 1, with its newline:
/// `script LINE NAME NUMBER`.
pub fn script_line(alloc: Global, line: u32, kind: ScriptKind) -> Result<String, NoMemory>
    ensures { IfOk result (λ text. string_bytes text ≡ script_text line kind) }
{
    script_fault_line(alloc, u64::from(line), kind)
}

/// The same, for a line number of up to 64 bits.
pub fn script_fault_line(alloc: Global, line: u64, kind: ScriptKind) -> Result<String, NoMemory>
    ensures { IfOk result (λ text. string_bytes text ≡ script_text line kind) }
{
    let name = kind.word();
    let number = kind.number();
    Ok(format!(in alloc; "script {line} {name} {number}\n")?)
}
