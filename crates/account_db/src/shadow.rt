ghost use Rattle.std.specs.Prelude.{◌≡◌, ◌≤◌, length};
ghost use Rattle.account_db.specs.Shadow.{are_days, is_days, shadow_in, shadow_named, shadows_of};
ghost use Rattle.account_db.specs.Parts.{fields_of};

use crate::entry::{AccountEntry, EntryFile, file_of};
use crate::fault::DbFault;
use crate::parts::{field, has_fields};
use pam_base::{NoMemory, Text, are_digits, number_in};
use std::alloc::Global;

/// An entry of `shadow(5)`. The numbers are days; an empty field has none.
#[derive(Debug, Drop)]
pub struct Shadow {
    pub name: Text,
    pub hash: Text,
    pub last_change: Option<u32>,
    pub min: Option<u32>,
    pub max: Option<u32>,
    pub warn: Option<u32>,
    pub inactive: Option<u32>,
    pub expire: Option<u32>,
    pub reserved: Text,
}

impl AccountEntry for Shadow {
    ghost form = { shadow_in };

    ghost name = { λ s. s.name };

    ghost named = { shadow_named };

    fn has_form(line: &[u8]) -> bool {
        has_fields(9, line) && are_days(line)
    }

    fn read(alloc: Global, line: &[u8]) -> Result<Option<Shadow>, NoMemory> {
        if !has_fields(9, line) || !are_days(line) {
            return Ok(None);
        }
        Ok(Some(Shadow {
            name: Text::from_bytes(alloc, field(0, line))?,
            hash: Text::from_bytes(alloc, field(1, line))?,
            last_change: number_in(field(2, line)),
            min: number_in(field(3, line)),
            max: number_in(field(4, line)),
            warn: number_in(field(5, line)),
            inactive: number_in(field(6, line)),
            expire: number_in(field(7, line)),
            reserved: Text::from_bytes(alloc, field(8, line))?,
        }))
    }
}

// Whether the six fields after the hash are numbers of days.
fn are_days(line: &[u8]) -> bool
    requires { length (fields_of line.now) ≡ 9 }
    ensures { result ≡ are_days line.now }
{
    is_days(field(2, line))
        && is_days(field(3, line))
        && is_days(field(4, line))
        && is_days(field(5, line))
        && is_days(field(6, line))
        && is_days(field(7, line))
}

fn is_days(word: &[u8]) -> bool
    ensures { result ≡ is_days word.now }
{
    word.len() <= 9 && are_digits(word)
}

/// The entries of a shadow file (`shadow(5)`) with this text, or the first line that doesn't have the form of one, as
/// `passwds` does. Allocates nothing.
pub fn shadows(text: Text) -> Result<EntryFile<Shadow>, DbFault>
    requires { length text ≤ 1048576 }
    ensures { result ≡ shadows_of text }
{
    file_of(text)
}
