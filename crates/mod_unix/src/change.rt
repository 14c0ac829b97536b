ghost use Rattle.std.specs.Prelude.{◌≡◌, ◌≤◌, ℕ, IsTrue, IfOk, OnErr, IfSome, length};
ghost use Rattle.std.specs.Option.{option_copied};
ghost use Rattle.pam_outside.specs.Files.{VaultState};
ghost use Rattle.pam_outside.specs.Time.{ClockState, time_of};
ghost use Rattle.pam_room.specs.Plain.{plain_call, plain_process};
ghost use Rattle.pam_room.specs.State.{PlainProcess, PlainRoom, scene_of};
ghost use Rattle.module_acts.specs.Act.{Yields};
ghost use Rattle.module_acts.specs.Returns.{Returns, scene_of_parts};
ghost use Rattle.module_acts.specs.OnlyTalks.{OnlyTalks};
ghost use Rattle.mod_unix.specs.Aging.{day_of};
ghost use Rattle.mod_unix.specs.Change.{asks_old, changes_entry, changes_token, is_kept, is_too_early, takes_token, tries_change};

use crate::aging::{aged, day_of};
use crate::job::Job;
use crate::look::{KnownPassword, look_up};
use crate::new_token::take_token;
use crate::store::store_token;
use crate::verify::verify_hash;
use account_db::Shadow;
use conv_port::Conv;
use module_acts::{has_argument, laws, require_token, require_user, user_of};
use pam_base::{CHANGE_EXPIRED_AUTHTOK, Code, ConvErr, ItemName, PRELIM_CHECK, Refuse, Text};
use pam_outside::{Clock, Vault};
use pam_room::{Transaction, get_item};
use std::alloc::Global;

/// A token that is to be changed: the day, the user, and the user's entry in shadow.
#[derive(Clone, Copy)]
pub struct TokenChange<'a> {
    pub job: &'a Job<'a>,
    pub today: u64,
    pub user: &'a [u8],
    pub entry: &'a Shadow,
}

/// Changes the user's token, or checks in the first pass whether it may be changed. A random word
/// is taken from the clock only if a new hash is made.
pub(crate) fn change_token(
    job: &Job,
    transaction: &mut Transaction,
    conv: &mut dyn Conv,
    vault: &mut dyn Vault,
    clock: &mut dyn Clock,
) -> Result<Code, Refuse<ConvErr>>
    ensures conv_tells { conv_tells conv.new ≡ conv_tells conv.old }
    ensures vault_tells { vault_tells vault.new ≡ vault_tells vault.old }
    ensures err { IsTrue (vault_tells vault.old) →
        OnErr result ((vault_holds vault.new).files ≡ (vault_holds vault.old).files) }
    ensures clock_tells { clock_tells clock.new ≡ clock_tells clock.old }
    ensures clock_stays { IsTrue (clock_tells clock.old) →
        time_of (clock_holds clock.new) ≡ time_of (clock_holds clock.old) }
    ensures told { IsTrue (conv_tells conv.old) → IsTrue (vault_tells vault.old) →
        IsTrue (clock_tells clock.old) → job.now.moment ≡ (clock_holds clock.old).moment →
        Returns result (changes_token (plain_call job.now.call.now))
        (scene_of_parts transaction.old (conv_holds conv.old) (vault_holds vault.old)
        (clock_holds clock.old) (plain_process job.now.process.now))
        (scene_of_parts transaction.new (conv_holds conv.new) (vault_holds vault.new)
        (clock_holds clock.new) (plain_process job.now.process.now)) }
    ensures talks { OnlyTalks transaction.old transaction.new }
{
    laws::talking();
    require_user(job.alloc, transaction, conv)?;
    let user = Text::from_bytes(job.alloc, user_of(transaction))?;
    let look = look_up(job.alloc, vault, job.process, user.bytes())?;
    match &look {
        KnownPassword::Unknown => Ok(Code::UserUnknown),
        KnownPassword::Unavailable => Ok(Code::AuthinfoUnavail),
        KnownPassword::Plain(_) => Ok(Code::AuthtokErr),
        KnownPassword::Shadowed(entry) => {
            let change = TokenChange {
                job,
                today: day_of(job.moment),
                user: user.bytes(),
                entry,
            };
            change_entry(&change, transaction, conv, vault, clock)
        }
    }
}

// Continues with the user's entry in shadow.
fn change_entry(
    change: &TokenChange,
    transaction: &mut Transaction,
    conv: &mut dyn Conv,
    vault: &mut dyn Vault,
    clock: &mut dyn Clock,
) -> Result<Code, Refuse<ConvErr>>
    ensures conv_tells { conv_tells conv.new ≡ conv_tells conv.old }
    ensures vault_tells { vault_tells vault.new ≡ vault_tells vault.old }
    ensures err { IsTrue (vault_tells vault.old) →
        OnErr result ((vault_holds vault.new).files ≡ (vault_holds vault.old).files) }
    ensures clock_tells { clock_tells clock.new ≡ clock_tells clock.old }
    ensures clock_stays { IsTrue (clock_tells clock.old) →
        time_of (clock_holds clock.new) ≡ time_of (clock_holds clock.old) }
    ensures told { IsTrue (conv_tells conv.old) → IsTrue (vault_tells vault.old) →
        IsTrue (clock_tells clock.old) →
        change.now.today ≡ day_of (clock_holds clock.old).moment →
        Returns result (changes_entry (plain_call change.now.job.now.call.now)
        change.now.user.now change.now.entry.now)
        (scene_of_parts transaction.old (conv_holds conv.old) (vault_holds vault.old)
        (clock_holds clock.old) (plain_process change.now.job.now.process.now))
        (scene_of_parts transaction.new (conv_holds conv.new) (vault_holds vault.new)
        (clock_holds clock.new) (plain_process change.now.job.now.process.now)) }
    ensures talks { OnlyTalks transaction.old transaction.new }
{
    laws::acting();
    laws::talking();
    if is_kept(change) {
        return Ok(Code::Success);
    }
    if change.job.call.has_flag(PRELIM_CHECK) {
        return try_change(change, transaction, conv);
    }
    let token = take_token(change.job.alloc, change.job.call, transaction, conv)?;
    Ok(store_token(change, token, vault, clock)?)
}

// Whether the token stays because it need not be changed.
fn is_kept(change: &TokenChange) -> bool
    ensures { result ≡ is_kept (plain_call change.now.job.now.call.now) change.now.today
        change.now.entry.now }
{
    change.job.call.has_flag(CHANGE_EXPIRED_AUTHTOK)
        && aged(change.today, change.entry) != Code::NewAuthtokReqd
}

// Whether the token may be changed. If memory runs out, the old one wasn't taken.
fn try_change(
    change: &TokenChange,
    transaction: &mut Transaction,
    conv: &mut dyn Conv,
) -> Result<Code, Refuse<ConvErr>>
    ensures tells { conv_tells conv.new ≡ conv_tells conv.old }
    ensures told { IsTrue (conv_tells conv.old) → (vault : VaultState) (clock : ClockState) →
        Returns result (tries_change change.now.today change.now.entry.now)
        (scene_of_parts transaction.old (conv_holds conv.old) vault clock
        (plain_process change.now.job.now.process.now))
        (scene_of_parts transaction.new (conv_holds conv.new) vault clock
        (plain_process change.now.job.now.process.now)) }
    ensures refused { OnErr result (transaction.new.items ≡ transaction.old.items) }
    ensures talks { OnlyTalks transaction.old transaction.new }
{
    laws::acting();
    laws::talking();
    let entry = change.entry;
    if change.job.process.caller == 0 {
        return Ok(Code::Success);
    }
    if is_too_early(change.today, entry.last_change, entry.min) {
        return Ok(Code::AuthtokErr);
    }
    if entry.hash.is_empty() {
        return Ok(Code::Success);
    }
    ask_old(change.job.alloc, entry, transaction, conv)
}

fn is_too_early(today: u64, last: Option<u32>, min: Option<u32>) -> bool
    ensures { result ≡ is_too_early today last min }
{
    match last {
        Some(last) => match min {
            Some(min) => today < u64::from(last) + u64::from(min),
            None => false,
        },
        None => false,
    }
}

// Asks for the old token, and verifies it.
fn ask_old(
    alloc: Global,
    entry: &Shadow,
    transaction: &mut Transaction,
    conv: &mut dyn Conv,
) -> Result<Code, Refuse<ConvErr>>
    ensures tells { conv_tells conv.new ≡ conv_tells conv.old }
    ensures told { IsTrue (conv_tells conv.old) →
        (vault : VaultState) (clock : ClockState) (process : PlainProcess) →
        Returns result (asks_old entry.now)
        (scene_of_parts transaction.old (conv_holds conv.old) vault clock process)
        (scene_of_parts transaction.new (conv_holds conv.new) vault clock process) }
    ensures refused { OnErr result (transaction.new.items ≡ transaction.old.items) }
    ensures talks { OnlyTalks transaction.old transaction.new }
{
    require_token(alloc, transaction, conv, true, b"Password: ")?;
    match get_item(&transaction.items, ItemName::OldAuthTok) {
        Some(token) => Ok(verify_hash(entry.hash.bytes(), token)),
        None => unreachable!(),
    }
}
