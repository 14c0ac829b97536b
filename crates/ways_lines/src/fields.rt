ghost use Rattle.std.specs.Prelude.{◌≡◌, ◌++◌, OnOk, string_bytes};
ghost use Rattle.ways_lines.specs.Fields.{field, number_field};

use pam_base::{NoMemory, push_quoted};

/// Adds a tab and a text, in which no tab and no newline is left.
#[tactic(auto, unfolding(crate::specs::Fields::field))]
pub fn write_field(text: &mut String, bytes: &[u8]) -> Result<(), NoMemory>
    ensures { OnOk result (string_bytes text.new ≡ string_bytes text.old ++ field bytes.now) }
{
    text.push_str("\t")?;
    push_quoted(text, bytes)
}

/// Adds a tab and a number.
#[tactic(auto, unfolding(crate::specs::Fields::number_field))]
pub fn write_number(text: &mut String, number: usize) -> Result<(), NoMemory>
    ensures { OnOk result (string_bytes text.new ≡ string_bytes text.old ++ number_field number) }
{
    write!(text, "\t{number}")?;
    Ok(())
}
