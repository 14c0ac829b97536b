ghost use Rattle.std.specs.Prelude.{◌≡◌, ◌∷◌, ◌++◌, [], IfOk, OnOk};
ghost use Rattle.own_files.specs.Lines.{is_own, own_lines};

use pam_base::{Lines, NoMemory, Parts, Text};
use std::alloc::Global;

/// The lines of a shadow file (`shadow(5)`) whose first field is this user, each with a newline.
#[tactic(auto, unfolding(crate::specs::Lines::own_lines))]
pub fn own_lines(alloc: Global, user: &[u8], text: &[u8]) -> Result<Text, NoMemory>
    ensures { IfOk result (λ own. own ≡ own_lines user.now text.now) }
{
    let mut own = Text::new(alloc);
    let mut lines = Lines::new(text);
    while let Some(line) = lines.next_line() {
        if is_own(user, line) {
            push_line(&mut own, line)?;
        }
    }
    Ok(own)
}

fn push_line(own: &mut Text, line: &[u8]) -> Result<(), NoMemory>
    ensures { OnOk result (own.new ≡ own.old ++ (line.now ++ 10 ∷ [])) }
{
    push_bytes(own, line)?;
    own.push(b'\n')
}

fn push_bytes(own: &mut Text, bytes: &[u8]) -> Result<(), NoMemory>
    ensures { OnOk result (own.new ≡ own.old ++ bytes.now) }
{
    let mut rest = bytes;
    while let [byte, after @ ..] = rest {
        own.push(*byte)?;
        rest = after;
    }
    Ok(())
}

// Whether the first field of a line is this user.
fn is_own(user: &[u8], line: &[u8]) -> bool
    ensures { result ≡ is_own user.now line.now }
{
    match Parts::new(b':', line).next_part() {
        Some(name) => name == user,
        None => false,
    }
}
