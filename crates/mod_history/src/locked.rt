ghost use Rattle.std.specs.Prelude.{◌≡◌, ◌≤◌, ◌<◌, IsTrue, IfOk, None, Ok, OnErr, length, false};
ghost use Rattle.pam_outside.specs.Time.{ClockState};
ghost use Rattle.pam_room.specs.Plain.{plain_call, plain_process};
ghost use Rattle.module_acts.specs.Act.{StepsTo, Yields};
ghost use Rattle.module_acts.specs.Returns.{scene_of_parts};
ghost use Rattle.module_acts.specs.OnlyTalks.{OnlyTalks};
ghost use Rattle.mod_history.specs.Pwhistory.{is_refused, locks_history, remember_in_history, remember_locked, remember_of};

use crate::arguments::remember_of;
use crate::file::{HISTORY_LIMIT, HISTORY_NAME, history_in, store_text};
use crate::history::{History, hashes_of};
use crate::job::Job;
use crate::refusal::{is_refused_now, refuse_token, unset_token};
use crate::renewal::renewed_text;
use conv_port::Conv;
use module_acts::{hold_named, laws, read_named, release};
use pam_base::{Code, MAX_TEXT, NoMemory, Text};
use pam_outside::{LockKind, Vault};
use pam_room::Transaction;

/// Remembers the hash of the present token. `earlier` are the hashes that the user had when the
/// history wasn't locked yet: the new token is none of theirs. The account files are locked from
/// the read to the replacement, as lckpwdf(3) locks them, and not while the user gets a message, so
/// that nobody can hold the lock by not reading a terminal.
pub(crate) fn lock_history(
    job: &Job,
    earlier: &[Text],
    transaction: &mut Transaction,
    conv: &mut dyn Conv,
    vault: &mut dyn Vault,
) -> Result<Code, NoMemory>
    requires short { length job.now.token.now ≤ MAX_TEXT }
    requires remembers { 0 < remember_of job.now.asked.now.call.now.args.now }
    requires earlier { is_refused job.now.asked.now.call.now.args.now
        job.now.asked.now.process.now.caller job.now.token.now job.now.hash.now earlier.now
        ≡ false }
    ensures conv_tells { conv_tells conv.new ≡ conv_tells conv.old }
    ensures vault_tells { vault_tells vault.new ≡ vault_tells vault.old }
    ensures err { IsTrue (vault_tells vault.old) →
        OnErr result ((vault_holds vault.new).files ≡ (vault_holds vault.old).files) }
    ensures told { IsTrue (conv_tells conv.old) → IsTrue (vault_tells vault.old) →
        (clock : ClockState) →
        IfOk result (λ code. Yields code (locks_history (plain_call job.now.asked.now.call.now)
        (remember_of job.now.asked.now.call.now.args.now) job.now.user.now job.now.hash.now
        job.now.token.now)
        (scene_of_parts transaction.old (conv_holds conv.old) (vault_holds vault.old) clock
        (plain_process job.now.asked.now.process.now))
        (scene_of_parts transaction.new (conv_holds conv.new) (vault_holds vault.new) clock
        (plain_process job.now.asked.now.process.now))) }
    ensures talks { OnlyTalks transaction.old transaction.new }
{
    laws::talking();
    let asked = job.asked;
    let held = hold_named(
        asked.alloc,
        vault,
        asked.process,
        b"/etc/.pwd.lock",
        LockKind::Record,
    )?;
    let Some(held) = held else {
        // Otherwise a later module would set a token that wasn't remembered.
        unset_token(transaction);
        return Ok(Code::AuthtokErr);
    };
    let done = remember_locked(job, earlier, vault)?;
    release(vault, held);
    match done {
        Some(code) => Ok(code),
        None => {
            refuse_token(asked.alloc, transaction, conv)?;
            Ok(Code::AuthtokErr)
        }
    }
}

// Reads the history again, and replaces it; None if the token has been used since.
fn remember_locked(
    job: &Job,
    earlier: &[Text],
    vault: &mut dyn Vault,
) -> Result<Option<Code>, NoMemory>
    requires short { length job.now.token.now ≤ MAX_TEXT }
    requires remembers { 0 < remember_of job.now.asked.now.call.now.args.now }
    requires earlier { is_refused job.now.asked.now.call.now.args.now
        job.now.asked.now.process.now.caller job.now.token.now job.now.hash.now earlier.now
        ≡ false }
    ensures tells { vault_tells vault.new ≡ vault_tells vault.old }
    ensures err { IsTrue (vault_tells vault.old) →
        OnErr result ((vault_holds vault.new).files ≡ (vault_holds vault.old).files) }
    ensures none { IsTrue (vault_tells vault.old) → result ≡ Ok None →
        (vault_holds vault.new).files ≡ (vault_holds vault.old).files }
    ensures told { IsTrue (vault_tells vault.old) →
        IfOk result (λ done. StepsTo (remember_locked (plain_call job.now.asked.now.call.now)
        (remember_of job.now.asked.now.call.now.args.now) job.now.user.now job.now.hash.now
        job.now.token.now) done job.now.asked.now.process.now (vault_holds vault.old)
        (vault_holds vault.new)) }
{
    let asked = job.asked;
    let content = read_named(
        asked.alloc,
        vault,
        asked.process,
        HISTORY_NAME,
        HISTORY_LIMIT,
    )?;
    let history = history_in(asked.alloc, content)?;
    remember_in_history(job, earlier, history, vault)
}

// Continues with the history, unless it can't be read.
fn remember_in_history(
    job: &Job,
    earlier: &[Text],
    history: Option<History>,
    vault: &mut dyn Vault,
) -> Result<Option<Code>, NoMemory>
    requires short { length job.now.token.now ≤ MAX_TEXT }
    requires remembers { 0 < remember_of job.now.asked.now.call.now.args.now }
    requires earlier { is_refused job.now.asked.now.call.now.args.now
        job.now.asked.now.process.now.caller job.now.token.now job.now.hash.now earlier.now
        ≡ false }
    ensures tells { vault_tells vault.new ≡ vault_tells vault.old }
    ensures err { IsTrue (vault_tells vault.old) →
        OnErr result ((vault_holds vault.new).files ≡ (vault_holds vault.old).files) }
    ensures none { IsTrue (vault_tells vault.old) → result ≡ Ok None →
        (vault_holds vault.new).files ≡ (vault_holds vault.old).files }
    ensures told { IsTrue (vault_tells vault.old) →
        IfOk result (λ done. StepsTo (remember_in_history (plain_call job.now.asked.now.call.now)
        (remember_of job.now.asked.now.call.now.args.now) job.now.user.now job.now.hash.now
        job.now.token.now history) done job.now.asked.now.process.now (vault_holds vault.old)
        (vault_holds vault.new)) }
{
    laws::acting();
    let Some(history) = history else {
        return Ok(Some(Code::AuthtokErr));
    };
    let hashes = hashes_of(job.user, &history);
    if is_refused_now(job, earlier, hashes) {
        return Ok(None);
    }
    let asked = job.asked;
    let remember = remember_of(asked.call);
    let text = renewed_text(asked.alloc, remember, job.user, job.hash, &history)?;
    let code = store_text(asked.alloc, asked.process, vault, text.bytes())?;
    Ok(Some(code))
}
