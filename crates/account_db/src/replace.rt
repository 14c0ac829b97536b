ghost use Rattle.std.specs.Prelude.{◌≡◌, ◌≤◌, ◌++◌, length, IfOk, OnOk};
ghost use Rattle.std.specs.List.{join_with_byte};
ghost use Rattle.account_db.specs.Entries.{Answers};
ghost use Rattle.account_db.specs.Replace.{changed_line, hash_replaced, with_hash};

use crate::entry::{check_lines, is_line_of};
use crate::fault::DbFault;
use crate::parts::name_in;
use crate::shadow::Shadow;
use pam_base::{NoMemory, Parts, Refuse, Text, Texts};
use std::alloc::Global;

/// A shadow file (`shadow(5)`) in which the first line of the user has this hash, and this day as that of its last
/// change. Every other byte stays; if the user has no line, all bytes do. Or the first line that doesn't have the form
/// of an entry, as `shadows` returns it, even if memory runs out. The text has at most 1,048,576 bytes.
pub fn replace_hash(
    alloc: Global,
    text: &[u8],
    user: &[u8],
    hash: &[u8],
    day: u64,
) -> Result<Text, Refuse<DbFault>>
    requires { length text.now ≤ 1048576 }
    ensures { Answers result (hash_replaced user.now hash.now day text.now) }
{
    match check_lines::<Shadow>(text) {
        Ok(()) => Ok(with_hash(alloc, text, user, hash, day)?),
        Err(fault) => Err(Refuse::Named(fault)),
    }
}

// The text with the first line of the user changed.
fn with_hash(
    alloc: Global,
    text: &[u8],
    user: &[u8],
    hash: &[u8],
    day: u64,
) -> Result<Text, NoMemory>
    ensures { IfOk result (λ text'. text' ≡ with_hash user.now hash.now day text.now) }
{
    let mut lines = Texts::new(alloc);
    let mut parts = Parts::new(b'\n', text);
    let mut changed = false;
    while let Some(line) = parts.next_part() {
        if !changed && is_line_of(user, line) {
            lines.push(changed_line(alloc, line, hash, day)?)?;
            changed = true;
        } else {
            lines.push(Text::from_bytes(alloc, line)?)?;
        }
    }
    joined(alloc, b'\n', &lines)
}

// A line with this hash and this day of the last change.
fn changed_line(alloc: Global, line: &[u8], hash: &[u8], day: u64) -> Result<Text, NoMemory>
    ensures { IfOk result (λ text. text ≡ changed_line hash.now day line.now) }
{
    let day = format!(in alloc; "{day}")?;
    let mut fields = Texts::new(alloc);
    fields.push(Text::from_bytes(alloc, name_in(line))?)?;
    fields.push(Text::from_bytes(alloc, hash)?)?;
    fields.push(Text::from_bytes(alloc, day.as_bytes())?)?;
    let mut parts = Parts::new(b':', line);
    for _ in 0..3usize {
        let _old = parts.next_part();
    }
    put_parts(alloc, &mut parts, &mut fields)?;
    joined(alloc, b':', &fields)
}

// Adds the parts that are left.
fn put_parts(alloc: Global, parts: &mut Parts, texts: &mut Texts) -> Result<(), NoMemory>
    ensures { OnOk result (texts.new ≡ texts.old ++ parts.old) }
{
    while let Some(part) = parts.next_part() {
        texts.push(Text::from_bytes(alloc, part)?)?;
    }
    Ok(())
}

// The texts one after another, with a byte between each two of them.
fn joined(alloc: Global, byte: u8, texts: &Texts) -> Result<Text, NoMemory>
    ensures { IfOk result (λ text. text ≡ join_with_byte byte texts.now) }
{
    let mut all = Vec::new(alloc);
    let mut rest = texts.items();
    while let [text, after @ ..] = rest {
        all.extend_from_slice(text.bytes())?;
        if !after.is_empty() {
            all.push(byte)?;
        }
        rest = after;
    }
    Ok(Text::from_vec(all))
}
