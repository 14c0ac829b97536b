ghost use Rattle.report_lines.specs.Form.{Reads};
ghost use Rattle.report_lines.specs.Guess.{guessed_last, if_printed};
ghost use Rattle.report_lines.specs.Says.{lasts};

use crate::form::Form;
use crate::last::{read_fault_line, script_fault_line};
use crate::names::script_fault_in;
use crate::printed::if_printed;
use crate::words::{after_space, before_space, number_of};
use pam_base::NoMemory;
use std::alloc::Global;

/// Reads the last line of a run that ended early.
pub fn read_last(alloc: Global, line: &[u8]) -> Result<Option<Form>, NoMemory>
    ensures { Reads result (if_printed line.now (lasts (guessed_last line.now))) }
{
    if line == b"read fault".as_slice() {
        return Ok(if_printed(read_fault_line(), line, Form::Last));
    }
    let words = after_space(line);
    let kind = script_fault_in(before_space(after_space(words)));
    let text = script_fault_line(alloc, number_of(before_space(words)), kind)?;
    Ok(if_printed(text.as_str(), line, Form::Last))
}
