ghost use Rattle.std.specs.Prelude.{◌≡◌, ◌≤◌, IsTrue, IfOk, length};
ghost use Rattle.module_acts.specs.Accounts.{account_limit};
ghost use Rattle.module_acts.specs.Content.{IsWithin};
ghost use Rattle.module_acts.specs.Act.{StepsTo};
ghost use Rattle.mod_unix.specs.Look.{field_in, is_x, looks, shadow_in};

use account_db::{Shadow, entry_of, passwds, shadows};
use module_acts::{ACCOUNT_LIMIT, Content, read_named};
use pam_base::{NoMemory, Text};
use pam_outside::Vault;
use pam_room::Process;
use std::alloc::Global;

/// What is known of a user's password.
#[derive(Drop)]
pub enum KnownPassword {
    /// There is no such user.
    Unknown,
    /// The account files can't be read, or lack the user's entry in `shadow`.
    Unavailable,
    /// The hash in `passwd`.
    Plain(Text),
    /// The entry in `shadow`.
    Shadowed(Shadow),
}

// The password field of a user's entry in `passwd`.
#[derive(Drop)]
enum Field {
    Unreadable,
    Missing,
    Holds(Text),
}

/// Looks up what is known of a user's password: in `passwd`, and if the field there is `x`, in
/// `shadow`.
pub fn look_up(
    alloc: Global,
    vault: &mut dyn Vault,
    process: &Process,
    user: &[u8],
) -> Result<KnownPassword, NoMemory>
    ensures tells { vault_tells vault.new ≡ vault_tells vault.old }
    ensures files { IsTrue (vault_tells vault.old) →
        (vault_holds vault.new).files ≡ (vault_holds vault.old).files }
    ensures told { IsTrue (vault_tells vault.old) →
        IfOk result (λ look. StepsTo (looks user.now) look process.now (vault_holds vault.old)
        (vault_holds vault.new)) }
{
    let content = read_named(alloc, vault, process, b"/etc/passwd", ACCOUNT_LIMIT)?;
    let hash = match field_in(alloc, user, content)? {
        Field::Unreadable => return Ok(KnownPassword::Unavailable),
        Field::Missing => return Ok(KnownPassword::Unknown),
        Field::Holds(hash) => hash,
    };
    if !is_x(hash.bytes()) {
        return Ok(KnownPassword::Plain(hash));
    }
    let content = read_named(alloc, vault, process, b"/etc/shadow", ACCOUNT_LIMIT)?;
    let look = shadow_in(alloc, user, content)?;
    Ok(look)
}

fn is_x(hash: &[u8]) -> bool
    ensures { result ≡ is_x hash.now }
{
    hash == b"x".as_slice()
}

fn field_in(alloc: Global, user: &[u8], content: Content) -> Result<Field, NoMemory>
    requires { IsWithin content account_limit }
    ensures { IfOk result (λ field. field ≡ field_in user.now content) }
{
    let text = match content {
        Content::Absent => return Ok(Field::Unreadable),
        Content::Unreadable => return Ok(Field::Unreadable),
        Content::Holds(text) => text,
    };
    match passwds(text) {
        Ok(entries) => match entry_of(alloc, user, &entries)? {
            Some(entry) => Ok(Field::Holds(entry.password)),
            None => Ok(Field::Missing),
        },
        Err(_) => Ok(Field::Unreadable),
    }
}

fn shadow_in(alloc: Global, user: &[u8], content: Content) -> Result<KnownPassword, NoMemory>
    requires { IsWithin content account_limit }
    ensures { IfOk result (λ look. look ≡ shadow_in user.now content) }
{
    let text = match content {
        Content::Absent => return Ok(KnownPassword::Unavailable),
        Content::Unreadable => return Ok(KnownPassword::Unavailable),
        Content::Holds(text) => text,
    };
    match shadows(text) {
        Ok(entries) => match entry_of(alloc, user, &entries)? {
            Some(entry) => Ok(KnownPassword::Shadowed(entry)),
            None => Ok(KnownPassword::Unavailable),
        },
        Err(_) => Ok(KnownPassword::Unavailable),
    }
}
