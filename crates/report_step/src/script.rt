ghost use Rattle.std.specs.Prelude.{◌≡◌, IfOk, string_bytes};
ghost use Rattle.report_lines.specs.Line.{script_text};
ghost use Rattle.report_step.specs.Script.{read_fault_text};

use pam_base::{NoMemory, ScriptKind};
use report_lines::{read_fault_line, script_line};
use std::alloc::Global;

/// The last line of a run whose script couldn't be read to its end, with its newline.
pub fn read_fault_report() -> &'static str
    ensures { result.now ≡ read_fault_text }
{
    read_fault_line()
}

/// The last line of a run whose script is refused at this line, counted from 1, with its newline.
pub fn script_report(alloc: Global, line: u32, kind: ScriptKind) -> Result<String, NoMemory>
    ensures { IfOk result (λ text. string_bytes text ≡ script_text line kind) }
{
    script_line(alloc, line, kind)
}
