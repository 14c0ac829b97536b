ghost use Rattle.std.specs.Prelude.{◌≡◌, ◌++◌, OnOk, string_bytes};
ghost use Rattle.std.specs.List.{flat_map};
ghost use Rattle.report_lines.specs.Line.{variable_text};
ghost use Rattle.report_step.specs.Answered.{environment_text, answer_text};

use pam_base::{NoMemory, Text};
use pam_library::Answer;
use report_lines::{
    write_code_result, write_count_result, write_pending_result, write_refused_result,
    write_result, write_value_result,
};

/// Adds the lines of a call's result.
pub(crate) fn write_answer(
    text: &mut String,
    handle: u32,
    command: &str,
    answer: &Answer,
) -> Result<(), NoMemory>
    ensures { OnOk result (string_bytes text.new ≡ string_bytes text.old
        ++ answer_text handle command.now answer.now) }
{
    match answer {
        Answer::Code(code) => write_code_result(text, handle, command, *code),
        Answer::Refused(fault) => write_refused_result(text, handle, command, fault),
        Answer::Value(value) => write_value_result(text, handle, command, value),
        Answer::List(variables) => write_environment(text, handle, command, variables.items()),
        Answer::NotOpen => write_result(text, handle, command, "not open"),
        Answer::AlreadyOpen => write_result(text, handle, command, "already open"),
        Answer::BadNumber => write_result(text, handle, command, "bad number"),
        Answer::Pending(func) => write_pending_result(text, handle, command, *func),
        Answer::Nothing => Ok(()),
    }
}

// Adds a line for each variable, in order, and the line with their number.
fn write_environment(
    text: &mut String,
    handle: u32,
    command: &str,
    variables: &[Text],
) -> Result<(), NoMemory>
    ensures { OnOk result (string_bytes text.new ≡ string_bytes text.old
        ++ environment_text handle command.now variables.now) }
{
    write_variables(text, handle, variables)?;
    write_count_result(text, handle, command, variables.len())
}

fn write_variables(text: &mut String, handle: u32, variables: &[Text]) -> Result<(), NoMemory>
    ensures { OnOk result (string_bytes text.new ≡ string_bytes text.old
        ++ flat_map (variable_text handle) variables.now) }
{
    for variable in variables {
        write_variable(text, handle, variable)?;
    }
    Ok(())
}

fn write_variable(text: &mut String, handle: u32, variable: &Text) -> Result<(), NoMemory>
    ensures { OnOk result (string_bytes text.new ≡ string_bytes text.old
        ++ variable_text handle variable.now) }
{
    report_lines::write_variable(text, handle, variable.bytes())
}
