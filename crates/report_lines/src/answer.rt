ghost use Rattle.std.specs.Prelude.{◌≡◌, ◌++◌, Some, OnOk, codes, decimal, string_bytes};
ghost use Rattle.service_load.specs.FirstFault.{fault_at};
ghost use Rattle.report_lines.specs.Line.{code_words, number_words, pending_words, refused_words, value_words, words_text};

use crate::code::write_code_line;
use crate::number::write_number;
use crate::quoted::write_quoted_line;
use pam_base::{Code, FaultKind, Func, NoMemory, Text, Word, code_name, code_number, push_quoted};
use service_load::LoadFault;
use std::alloc::AllocError;

/// Adds the line of a result, `H COMMAND WORDS`.
pub fn write_result(
    text: &mut String,
    handle: u32,
    command: &str,
    words: &str,
) -> Result<(), NoMemory>
    ensures { OnOk result (string_bytes text.new ≡ string_bytes text.old
        ++ words_text handle command.now words.now) }
{
    write!(text, "{handle} {command} {words}\n")?;
    Ok(())
}

/// Adds the line of a result, as `1 authenticate SUCCESS 0`.
pub fn write_code_result(
    text: &mut String,
    handle: u32,
    command: &str,
    code: Code,
) -> Result<(), NoMemory>
    ensures { OnOk result (string_bytes text.new ≡ string_bytes text.old
        ++ words_text handle command.now (code_words code)) }
{
    write_heading(text, handle, command)?;
    write_code_line(text, code)
}

// Adds the handle and the command, with a space after each.
fn write_heading(text: &mut String, handle: u32, command: &str) -> Result<(), AllocError>
    ensures { OnOk result (string_bytes text.new ≡ string_bytes text.old
        ++ (decimal handle ++ codes " " ++ command.now ++ codes " ")) }
{
    write_number(text, u64::from(handle))?;
    text.push_str(" ")?;
    text.push_str(command)?;
    text.push_str(" ")
}

/// Adds the result of a start that the configuration refused, `refused FILE LINE NAME NUMBER`.
pub fn write_refused_result(
    text: &mut String,
    handle: u32,
    command: &str,
    fault: &LoadFault,
) -> Result<(), NoMemory>
    ensures { OnOk result (string_bytes text.new ≡ string_bytes text.old
        ++ words_text handle command.now (refused_words fault.now)) }
{
    let file = fault.file.bytes();
    write_refusal_result(
        text,
        handle,
        command,
        file,
        u64::from(fault.line),
        fault.kind,
    )
}

/// The same, for a line number of up to 64 bits.
pub fn write_refusal_result(
    text: &mut String,
    handle: u32,
    command: &str,
    file: &[u8],
    line: u64,
    kind: FaultKind,
) -> Result<(), NoMemory>
    ensures { OnOk result (string_bytes text.new ≡ string_bytes text.old
        ++ words_text handle command.now (refused_words (fault_at file.now line kind))) }
{
    write_heading(text, handle, command)?;
    write_refusal(text, file, line, kind)?;
    text.push_str("\n")?;
    Ok(())
}

/// Adds the result of a call that returns a value: `set TEXT`, or `unset`.
pub fn write_value_result(
    text: &mut String,
    handle: u32,
    command: &str,
    value: &Option<Text>,
) -> Result<(), NoMemory>
    ensures { OnOk result (string_bytes text.new ≡ string_bytes text.old
        ++ words_text handle command.now (value_words value.now)) }
{
    match value {
        Some(set) => {
            write_heading(text, handle, command)?;
            write_set(text, set)
        }
        None => write_result(text, handle, command, "unset"),
    }
}

// The end of a line: a value that is set.
fn write_set(text: &mut String, set: &Text) -> Result<(), NoMemory>
    ensures { OnOk result (string_bytes text.new ≡ string_bytes text.old
        ++ (value_words (Some set.now) ++ codes "\n")) }
{
    text.push_str("set ")?;
    write_quoted_line(text, set.bytes())
}

/// Adds the result of a call that waits for another one: `ABORT 26 pending NAME`.
pub fn write_pending_result(
    text: &mut String,
    handle: u32,
    command: &str,
    func: Func,
) -> Result<(), NoMemory>
    ensures { OnOk result (string_bytes text.new ≡ string_bytes text.old
        ++ words_text handle command.now (pending_words func)) }
{
    let name = code_name(Code::Abort);
    let number = code_number(Code::Abort);
    let call = func.word();
    write!(text, "{handle} {command} {name} {number} pending {call}\n")?;
    Ok(())
}

/// Adds the result of a call that lists: how many there are.
pub fn write_count_result(
    text: &mut String,
    handle: u32,
    command: &str,
    count: usize,
) -> Result<(), NoMemory>
    ensures { OnOk result (string_bytes text.new ≡ string_bytes text.old
        ++ words_text handle command.now (number_words count)) }
{
    write!(text, "{handle} {command} {count}\n")?;
    Ok(())
}

/// Adds why a configuration is refused, `refused FILE LINE NAME NUMBER`, the file's name quoted; without a newline.
pub fn write_refused(text: &mut String, fault: &LoadFault) -> Result<(), NoMemory>
    ensures { OnOk result (string_bytes text.new ≡ string_bytes text.old
        ++ refused_words fault.now) }
{
    write_refusal(text, fault.file.bytes(), u64::from(fault.line), fault.kind)
}

// The same, for a line number of up to 64 bits.
fn write_refusal(text: &mut String, file: &[u8], line: u64, kind: FaultKind) -> Result<(), NoMemory>
    ensures { OnOk result (string_bytes text.new ≡ string_bytes text.old
        ++ refused_words (fault_at file.now line kind)) }
{
    text.push_str("refused ")?;
    push_quoted(text, file)?;
    let name = kind.word();
    let number = kind.number();
    write!(text, " {line} {name} {number}")?;
    Ok(())
}
