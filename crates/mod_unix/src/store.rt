ghost use Rattle.std.specs.Prelude.{◌≡◌, ◌≤◌, IsTrue, IfOk, OnErr, IfSome, length};
ghost use Rattle.pam_outside.specs.Time.{time_of};
ghost use Rattle.pam_room.specs.Plain.{plain_call, plain_process};
ghost use Rattle.pam_room.specs.State.{PlainRoom, scene_of};
ghost use Rattle.module_acts.specs.Accounts.{account_limit};
ghost use Rattle.module_acts.specs.Content.{IsWithin};
ghost use Rattle.module_acts.specs.Act.{Yields, StepsTo};
ghost use Rattle.mod_unix.specs.Aging.{day_of};
ghost use Rattle.mod_unix.specs.Change.{write_result, changed_shadow, changes_locked, changes_shadow, stores_token};

use crate::change::TokenChange;
use crate::new_hash::hashed_token;
use account_db::{entry_of, replace_hash, shadows};
use module_acts::{ACCOUNT_LIMIT, Content, hold_named, laws, read_named, release, replace_named};
use pam_base::{Code, MAX_TEXT, NoMemory, Refuse, Text};
use pam_outside::{Clock, LockKind, Vault, random_word};

/// Hashes the new token, if there is one, and puts the hash into shadow.
pub(crate) fn store_token(
    change: &TokenChange,
    token: Option<Text>,
    vault: &mut dyn Vault,
    clock: &mut dyn Clock,
) -> Result<Code, NoMemory>
    requires { IfSome token (λ t. length t ≤ MAX_TEXT) }
    ensures vault_tells { vault_tells vault.new ≡ vault_tells vault.old }
    ensures err { IsTrue (vault_tells vault.old) →
        OnErr result ((vault_holds vault.new).files ≡ (vault_holds vault.old).files) }
    ensures clock_tells { clock_tells clock.new ≡ clock_tells clock.old }
    ensures clock_stays { IsTrue (clock_tells clock.old) →
        time_of (clock_holds clock.new) ≡ time_of (clock_holds clock.old) }
    ensures told { IsTrue (vault_tells vault.old) → IsTrue (clock_tells clock.old) →
        (room : PlainRoom) → change.now.today ≡ day_of (clock_holds clock.old).moment →
        IfOk result (λ code. Yields code
        (stores_token (plain_call change.now.job.now.call.now) change.now.user.now token)
        (scene_of room (vault_holds vault.old) (clock_holds clock.old)
        (plain_process change.now.job.now.process.now))
        (scene_of room (vault_holds vault.new) (clock_holds clock.new)
        (plain_process change.now.job.now.process.now))) }
{
    laws::act_steps();
    laws::acting();
    let token = match token {
        Some(token) => token,
        None => return Ok(Code::AuthtokErr),
    };
    let job = change.job;
    let hash = hashed_token(job.alloc, job.call, random_word(clock), token.bytes())?;
    change_shadow(change, hash.bytes(), vault)
}

// Changes shadow. Meanwhile the account files are locked as lckpwdf(3) locks them.
fn change_shadow(change: &TokenChange, hash: &[u8], vault: &mut dyn Vault) -> Result<Code, NoMemory>
    ensures tells { vault_tells vault.new ≡ vault_tells vault.old }
    ensures err { IsTrue (vault_tells vault.old) →
        OnErr result ((vault_holds vault.new).files ≡ (vault_holds vault.old).files) }
    ensures told { IsTrue (vault_tells vault.old) →
        IfOk result (λ code. StepsTo
        (changes_shadow change.now.user.now hash.now change.now.today) code
        change.now.job.now.process.now (vault_holds vault.old) (vault_holds vault.new)) }
{
    let job = change.job;
    match hold_named(
        job.alloc,
        vault,
        job.process,
        b"/etc/.pwd.lock",
        LockKind::Record,
    )? {
        Some(held) => {
            let code = change_locked(change, hash, vault)?;
            release(vault, held);
            Ok(code)
        }
        None => Ok(Code::AuthtokErr),
    }
}

// Reads shadow again, and replaces it by one with the user's new hash.
fn change_locked(change: &TokenChange, hash: &[u8], vault: &mut dyn Vault) -> Result<Code, NoMemory>
    ensures tells { vault_tells vault.new ≡ vault_tells vault.old }
    ensures err { IsTrue (vault_tells vault.old) →
        OnErr result ((vault_holds vault.new).files ≡ (vault_holds vault.old).files) }
    ensures told { IsTrue (vault_tells vault.old) →
        IfOk result (λ code. StepsTo
        (changes_locked change.now.user.now hash.now change.now.today) code
        change.now.job.now.process.now (vault_holds vault.old) (vault_holds vault.new)) }
{
    let job = change.job;
    let content = read_named(job.alloc, vault, job.process, b"/etc/shadow", ACCOUNT_LIMIT)?;
    let text = match changed_shadow(change, hash, content)? {
        Some(text) => text,
        None => return Ok(Code::AuthtokErr),
    };
    let done = replace_named(job.alloc, vault, job.process, b"/etc/shadow", text.bytes())?;
    Ok(write_result(done))
}

/// The code of a replacement: AUTHTOK_ERR if it failed.
pub fn write_result(done: bool) -> Code
    ensures { result ≡ write_result done }
{
    if done {
        Code::Success
    } else {
        Code::AuthtokErr
    }
}

// The text of shadow with the new hash, if the user has an entry.
#[tactic(auto, unfolding(crate::specs::Change::changed_shadow))]
fn changed_shadow(
    change: &TokenChange,
    hash: &[u8],
    content: Content,
) -> Result<Option<Text>, NoMemory>
    requires { IsWithin content account_limit }
    ensures { IfOk result (λ text. text
        ≡ changed_shadow change.now.user.now hash.now change.now.today content) }
{
    let text = match content {
        Content::Absent => return Ok(None),
        Content::Unreadable => return Ok(None),
        Content::Holds(text) => text,
    };
    let alloc = change.job.alloc;
    let changed = match replace_hash(alloc, text.bytes(), change.user, hash, change.today) {
        Ok(changed) => changed,
        Err(refused) => match refused {
            Refuse::NoMemory => return Err(NoMemory),
            Refuse::Named(_) => return Ok(None),
        },
    };
    match shadows(text) {
        Ok(entries) => match entry_of(alloc, change.user, &entries)? {
            Some(_) => Ok(Some(changed)),
            None => Ok(None),
        },
        Err(_) => Ok(None),
    }
}
