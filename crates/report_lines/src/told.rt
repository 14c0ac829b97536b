ghost use Rattle.std.specs.Prelude.{◌≡◌, ◌++◌, OnOk, codes, decimal, string_bytes};
ghost use Rattle.handler_chain.specs.Retell.{seen_at};
ghost use Rattle.report_lines.specs.Line.{cleanup_text, message_text, missing_text, names_text, status_words, variable_text, visit_text, wait_text};

use crate::code::{write_code, write_code_line};
use crate::number::write_number;
use crate::quoted::write_quoted_line;
use pam_base::{Code, NoMemory, Style, push_quoted};
use std::alloc::AllocError;

/// Adds the line of a message, `H say STYLE TEXT`.
pub fn write_said(
    text: &mut String,
    handle: u32,
    style: Style,
    message: &[u8],
) -> Result<(), NoMemory>
    ensures { OnOk result (string_bytes text.new ≡ string_bytes text.old
        ++ message_text handle style message.now) }
{
    let style = style.number();
    write!(text, "{handle} say {style} ")?;
    write_quoted_line(text, message)
}

/// Adds the line of a rule that was run, `H line RULE MODULE NAME NUMBER`.
pub fn write_visited(
    text: &mut String,
    handle: u32,
    place: u32,
    name: &[u8],
    answer: Code,
) -> Result<(), NoMemory>
    ensures { OnOk result (string_bytes text.new ≡ string_bytes text.old
        ++ visit_text handle (seen_at place name.now answer)) }
{
    write_visit(text, handle, u64::from(place), name, answer)
}

/// The same, for a rule number of up to 64 bits.
pub fn write_visit(
    text: &mut String,
    handle: u32,
    place: u64,
    name: &[u8],
    answer: Code,
) -> Result<(), NoMemory>
    ensures { OnOk result (string_bytes text.new ≡ string_bytes text.old
        ++ visit_text handle (seen_at place name.now answer)) }
{
    write_place(text, handle, place)?;
    push_quoted(text, name)?;
    text.push_str(" ")?;
    write_code_line(text, answer)
}

// Adds the handle and the number of the rule that was run, up to the module's name.
fn write_place(text: &mut String, handle: u32, place: u64) -> Result<(), AllocError>
    ensures { OnOk result (string_bytes text.new ≡ string_bytes text.old
        ++ (decimal handle ++ codes " line " ++ decimal place ++ codes " ")) }
{
    write_number(text, u64::from(handle))?;
    text.push_str(" line ")?;
    write_number(text, place)?;
    text.push_str(" ")
}

/// Adds the line of module data that was cleaned up, `H clean ID STATUS NOTE MODULE DATA`.
pub fn write_cleaned(
    text: &mut String,
    handle: u32,
    id: u64,
    status: u32,
    note: u32,
    owner: &[u8],
    datum: &[u8],
) -> Result<(), NoMemory>
    ensures { OnOk result (string_bytes text.new ≡ string_bytes text.old
        ++ cleanup_text handle (record {
          id = id;
          status = status;
          note = note;
          owner = owner.now;
          datum = datum.now;
        })) }
{
    write_cleanup(text, handle, id, status, u64::from(note), owner, datum)
}

/// The same, for a note of up to 64 bits.
pub fn write_cleanup(
    text: &mut String,
    handle: u32,
    id: u64,
    status: u32,
    note: u64,
    owner: &[u8],
    datum: &[u8],
) -> Result<(), NoMemory>
    ensures { OnOk result (string_bytes text.new ≡ string_bytes text.old
        ++ cleanup_text handle (record {
          id = id;
          status = status;
          note = note;
          owner = owner.now;
          datum = datum.now;
        })) }
{
    write!(text, "{handle} clean {id} ")?;
    write_status(text, status)?;
    write!(text, " {note} ")?;
    write_names(text, owner, datum)
}

// The end of a line: both names quoted.
fn write_names(text: &mut String, owner: &[u8], datum: &[u8]) -> Result<(), NoMemory>
    ensures { OnOk result (string_bytes text.new ≡ string_bytes text.old
        ++ names_text owner.now datum.now) }
{
    push_quoted(text, owner)?;
    text.push_str(" ")?;
    write_quoted_line(text, datum)
}

fn write_status(text: &mut String, status: u32) -> Result<(), AllocError>
    ensures { OnOk result (string_bytes text.new ≡ string_bytes text.old ++ status_words status) }
{
    write!(text, "{status:08x}")
}

/// Adds the line of a delay, `H wait NAME NUMBER ASKED WAIT`, both in microseconds.
pub fn write_waited(
    text: &mut String,
    handle: u32,
    code: Code,
    asked: u32,
    wait: u32,
) -> Result<(), NoMemory>
    ensures { OnOk result (string_bytes text.new ≡ string_bytes text.old
        ++ wait_text handle code asked wait) }
{
    write_wait(text, handle, code, u64::from(asked), u64::from(wait))
}

/// The same, for numbers of up to 64 bits.
pub fn write_wait(
    text: &mut String,
    handle: u32,
    code: Code,
    asked: u64,
    wait: u64,
) -> Result<(), NoMemory>
    ensures { OnOk result (string_bytes text.new ≡ string_bytes text.old
        ++ wait_text handle code asked wait) }
{
    write!(text, "{handle} wait ")?;
    write_code(text, code)?;
    write!(text, " {asked} {wait}\n")?;
    Ok(())
}

/// Adds the line of a module that is missing, `H note missing MODULE`.
pub fn write_missing(text: &mut String, handle: u32, name: &[u8]) -> Result<(), NoMemory>
    ensures { OnOk result (string_bytes text.new ≡ string_bytes text.old
        ++ missing_text handle name.now) }
{
    write!(text, "{handle} note missing ")?;
    write_quoted_line(text, name)
}

/// Adds the line of a variable, `H env NAME=VALUE`.
pub fn write_variable(text: &mut String, handle: u32, variable: &[u8]) -> Result<(), NoMemory>
    ensures { OnOk result (string_bytes text.new ≡ string_bytes text.old
        ++ variable_text handle variable.now) }
{
    write!(text, "{handle} env ")?;
    write_quoted_line(text, variable)
}
