ghost use Rattle.std.specs.Prelude.{◌≡◌, ◌++◌, OnOk, string_bytes};
ghost use Rattle.report_lines.specs.Line.{missing_text};
ghost use Rattle.report_step.specs.Missing.{all_missing_text};

use pam_base::{NoMemory, Text};

/// Adds a line for each module that is missing, in order.
pub(crate) fn write_all_missing(
    text: &mut String,
    handle: u32,
    names: &[Text],
) -> Result<(), NoMemory>
    ensures { OnOk result (string_bytes text.new ≡ string_bytes text.old
        ++ all_missing_text handle names.now) }
{
    for name in names {
        write_missing(text, handle, name)?;
    }
    Ok(())
}

fn write_missing(text: &mut String, handle: u32, name: &Text) -> Result<(), NoMemory>
    ensures { OnOk result (string_bytes text.new ≡ string_bytes text.old
        ++ missing_text handle name.now) }
{
    report_lines::write_missing(text, handle, name.bytes())
}
