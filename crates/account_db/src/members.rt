ghost use Rattle.std.specs.Prelude.{◌≡◌, IfOk, Some};
ghost use Rattle.std.specs.List.{list_any};
ghost use Rattle.std.specs.Option.{option_copied};
ghost use Rattle.std.specs.Str.{bytes_eq};
ghost use Rattle.account_db.specs.Members.{group_names, group_of, has_gid, is_in_group, is_member};

use crate::group::{Group, Groups};
use crate::passwd::Passwd;
use pam_base::{NoMemory, Text, Texts};
use std::alloc::Global;

/// The group of a name (`getgrnam(3)`): the first entry with that name.
pub fn group_of<'a>(name: &[u8], groups: &'a Groups) -> Option<&'a Group>
    ensures { option_copied result ≡ group_of name.now groups.now }
{
    groups
        .items()
        .iter()
        .find(|group| group.name.bytes() == name)
}

/// Whether a user is in a group: the user's own entry has the group's id, or the group lists the user (`group(5)`).
pub fn is_member(user: &[u8], entry: Option<&Passwd>, group: &Group) -> bool
    ensures { result ≡ is_member user.now (option_copied entry.entry) group.now }
{
    has_gid(entry, group.gid) || has_text(user, &group.members)
}

fn has_gid(entry: Option<&Passwd>, gid: u32) -> bool
    ensures { result ≡ has_gid (option_copied entry.entry) gid }
{
    match entry {
        Some(entry) => entry.gid == gid,
        None => false,
    }
}

fn has_text(text: &[u8], texts: &Texts) -> bool
    ensures { result ≡ list_any (λ t. bytes_eq t text.now) texts.now }
{
    texts.items().iter().any(|t| t.bytes() == text)
}

/// Whether a user is in the group of a name; a group that doesn't exist has no members.
pub fn is_in_group(name: &[u8], user: &[u8], entry: Option<&Passwd>, groups: &Groups) -> bool
    ensures { result ≡ is_in_group name.now user.now (option_copied entry.entry) groups.now }
{
    match group_of(name, groups) {
        Some(group) => is_member(user, entry, group),
        None => false,
    }
}

/// The names of the groups that a user is in, one for each entry.
pub fn group_names(
    alloc: Global,
    user: &[u8],
    entry: &Passwd,
    groups: &Groups,
) -> Result<Texts, NoMemory>
    ensures { IfOk result (λ names. names ≡ group_names user.now (Some entry.now) groups.now) }
{
    let mut names = Texts::new(alloc);
    let mut rest = groups.items();
    while let [group, after @ ..] = rest {
        if is_member(user, Some(entry), group) {
            names.push(Text::from_bytes(alloc, group.name.bytes())?)?;
        }
        rest = after;
    }
    Ok(names)
}
