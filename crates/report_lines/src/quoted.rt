ghost use Rattle.std.specs.Prelude.{◌≡◌, ◌++◌, OnOk, codes, string_bytes};
ghost use Rattle.pam_base.specs.Quote.{quoted_text};

use pam_base::{NoMemory, push_quoted};

/// Adds the end of a line: these bytes, quoted.
pub(crate) fn write_quoted_line(text: &mut String, bytes: &[u8]) -> Result<(), NoMemory>
    ensures { OnOk result (string_bytes text.new ≡ string_bytes text.old
        ++ (quoted_text bytes.now ++ codes "\n")) }
{
    push_quoted(text, bytes)?;
    text.push_str("\n")?;
    Ok(())
}
