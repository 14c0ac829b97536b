ghost use Rattle.std.specs.Prelude.{◌≡◌, ◌++◌, OnOk, codes, string_bytes};
ghost use Rattle.report_lines.specs.Line.{code_words};

use crate::number::write_number;
use pam_base::{Code, NoMemory, code_name, code_number};
use std::alloc::AllocError;

/// Adds the name and the number of a code, as `AUTH_ERR 7`.
pub(crate) fn write_code(text: &mut String, code: Code) -> Result<(), AllocError>
    ensures { OnOk result (string_bytes text.new ≡ string_bytes text.old ++ code_words code) }
{
    text.push_str(code_name(code))?;
    text.push_str(" ")?;
    write_number(text, u64::from(code_number(code)))
}

/// Adds the end of a line: a code.
pub(crate) fn write_code_line(text: &mut String, code: Code) -> Result<(), NoMemory>
    ensures { OnOk result (string_bytes text.new ≡ string_bytes text.old
        ++ (code_words code ++ codes "\n")) }
{
    write_code(text, code)?;
    text.push_str("\n")?;
    Ok(())
}
