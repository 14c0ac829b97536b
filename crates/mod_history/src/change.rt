ghost use Rattle.std.specs.Prelude.{◌≡◌, ◌≤◌, ◌<◌, Some, IsTrue, IfOk, OnErr, length};
ghost use Rattle.pam_outside.specs.Time.{ClockState};
ghost use Rattle.pam_room.specs.Plain.{plain_call, plain_process};
ghost use Rattle.module_acts.specs.Act.{Yields};
ghost use Rattle.module_acts.specs.Returns.{Returns, scene_of_parts};
ghost use Rattle.module_acts.specs.OnlyTalks.{OnlyTalks};
ghost use Rattle.mod_history.specs.Pwhistory.{compares_token, renew_if_known, checks_token, remember_of, remembers, renews};

use crate::arguments::remember_of;
use crate::file::{HISTORY_LIMIT, HISTORY_NAME, history_in};
use crate::history::{History, hashes_of};
use crate::job::Job;
use crate::locked::lock_history;
use crate::refusal::{is_refused, refuse_token};
use conv_port::Conv;
use mod_unix::{KnownPassword, look_up, take_token};
use module_acts::{WorkInput, laws, read_named, require_user, user_of};
use pam_base::{Code, ConvErr, MAX_TEXT, NoMemory, Refuse, Text};
use pam_outside::Vault;
use pam_room::Transaction;

/// Takes a new token, unless the user has it or had it, and remembers the hash of the present one.
pub(crate) fn check_token(
    asked: &WorkInput,
    transaction: &mut Transaction,
    conv: &mut dyn Conv,
    vault: &mut dyn Vault,
) -> Result<Code, Refuse<ConvErr>>
    ensures conv_tells { conv_tells conv.new ≡ conv_tells conv.old }
    ensures vault_tells { vault_tells vault.new ≡ vault_tells vault.old }
    ensures err { IsTrue (vault_tells vault.old) →
        OnErr result ((vault_holds vault.new).files ≡ (vault_holds vault.old).files) }
    ensures told { IsTrue (conv_tells conv.old) → IsTrue (vault_tells vault.old) →
        (clock : ClockState) →
        Returns result (checks_token (plain_call asked.now.call.now))
        (scene_of_parts transaction.old (conv_holds conv.old) (vault_holds vault.old) clock
        (plain_process asked.now.process.now))
        (scene_of_parts transaction.new (conv_holds conv.new) (vault_holds vault.new) clock
        (plain_process asked.now.process.now)) }
    ensures talks { OnlyTalks transaction.old transaction.new }
{
    laws::talking();
    require_user(asked.alloc, transaction, conv)?;
    let user = Text::from_bytes(asked.alloc, user_of(transaction))?;
    let look = look_up(asked.alloc, vault, asked.process, user.bytes())?;
    renew_if_known(asked, user.bytes(), &look, transaction, conv, vault)
}

// Continues, depending on what is known of the user's password.
fn renew_if_known(
    asked: &WorkInput,
    user: &[u8],
    look: &KnownPassword,
    transaction: &mut Transaction,
    conv: &mut dyn Conv,
    vault: &mut dyn Vault,
) -> Result<Code, Refuse<ConvErr>>
    ensures conv_tells { conv_tells conv.new ≡ conv_tells conv.old }
    ensures vault_tells { vault_tells vault.new ≡ vault_tells vault.old }
    ensures err { IsTrue (vault_tells vault.old) →
        OnErr result ((vault_holds vault.new).files ≡ (vault_holds vault.old).files) }
    ensures told { IsTrue (conv_tells conv.old) → IsTrue (vault_tells vault.old) →
        (clock : ClockState) →
        Returns result (renew_if_known (plain_call asked.now.call.now) user.now look.now)
        (scene_of_parts transaction.old (conv_holds conv.old) (vault_holds vault.old) clock
        (plain_process asked.now.process.now))
        (scene_of_parts transaction.new (conv_holds conv.new) (vault_holds vault.new) clock
        (plain_process asked.now.process.now)) }
    ensures talks { OnlyTalks transaction.old transaction.new }
{
    laws::talking();
    match look {
        KnownPassword::Unknown => Ok(Code::UserUnknown),
        KnownPassword::Unavailable => Ok(Code::AuthtokErr),
        KnownPassword::Plain(hash) => renew(asked, user, hash.bytes(), transaction, conv, vault),
        KnownPassword::Shadowed(entry) => renew(
            asked,
            user,
            entry.hash.bytes(),
            transaction,
            conv,
            vault,
        ),
    }
}

// Takes the new token, and remembers the hash of the present one.
fn renew(
    asked: &WorkInput,
    user: &[u8],
    hash: &[u8],
    transaction: &mut Transaction,
    conv: &mut dyn Conv,
    vault: &mut dyn Vault,
) -> Result<Code, Refuse<ConvErr>>
    ensures conv_tells { conv_tells conv.new ≡ conv_tells conv.old }
    ensures vault_tells { vault_tells vault.new ≡ vault_tells vault.old }
    ensures err { IsTrue (vault_tells vault.old) →
        OnErr result ((vault_holds vault.new).files ≡ (vault_holds vault.old).files) }
    ensures told { IsTrue (conv_tells conv.old) → IsTrue (vault_tells vault.old) →
        (clock : ClockState) →
        Returns result (renews (plain_call asked.now.call.now) user.now hash.now)
        (scene_of_parts transaction.old (conv_holds conv.old) (vault_holds vault.old) clock
        (plain_process asked.now.process.now))
        (scene_of_parts transaction.new (conv_holds conv.new) (vault_holds vault.new) clock
        (plain_process asked.now.process.now)) }
    ensures talks { OnlyTalks transaction.old transaction.new }
{
    laws::talking();
    let token = take_token(asked.alloc, asked.call, transaction, conv)?;
    let Some(token) = token else {
        return Ok(Code::AuthtokErr);
    };
    let job = Job {
        asked,
        user,
        hash,
        token: token.bytes(),
    };
    Ok(remember(&job, transaction, conv, vault)?)
}

// Remembers the hash of the present token, if the user neither has nor had the new one.
fn remember(
    job: &Job,
    transaction: &mut Transaction,
    conv: &mut dyn Conv,
    vault: &mut dyn Vault,
) -> Result<Code, NoMemory>
    requires { length job.now.token.now ≤ MAX_TEXT }
    ensures conv_tells { conv_tells conv.new ≡ conv_tells conv.old }
    ensures vault_tells { vault_tells vault.new ≡ vault_tells vault.old }
    ensures err { IsTrue (vault_tells vault.old) →
        OnErr result ((vault_holds vault.new).files ≡ (vault_holds vault.old).files) }
    ensures told { IsTrue (conv_tells conv.old) → IsTrue (vault_tells vault.old) →
        (clock : ClockState) →
        IfOk result (λ code. Yields code (remembers (plain_call job.now.asked.now.call.now)
        job.now.user.now job.now.hash.now (Some job.now.token.now))
        (scene_of_parts transaction.old (conv_holds conv.old) (vault_holds vault.old) clock
        (plain_process job.now.asked.now.process.now))
        (scene_of_parts transaction.new (conv_holds conv.new) (vault_holds vault.new) clock
        (plain_process job.now.asked.now.process.now))) }
    ensures talks { OnlyTalks transaction.old transaction.new }
{
    laws::talking();
    let asked = job.asked;
    if remember_of(asked.call) == 0 {
        return Ok(Code::Success);
    }
    let content = read_named(
        asked.alloc,
        vault,
        asked.process,
        HISTORY_NAME,
        HISTORY_LIMIT,
    )?;
    let history = history_in(asked.alloc, content)?;
    compare(job, history, transaction, conv, vault)
}

// Refuses the token if the history has it. This takes long, so nothing is locked meanwhile.
fn compare(
    job: &Job,
    history: Option<History>,
    transaction: &mut Transaction,
    conv: &mut dyn Conv,
    vault: &mut dyn Vault,
) -> Result<Code, NoMemory>
    requires short { length job.now.token.now ≤ MAX_TEXT }
    requires remembers { 0 < remember_of job.now.asked.now.call.now.args.now }
    ensures conv_tells { conv_tells conv.new ≡ conv_tells conv.old }
    ensures vault_tells { vault_tells vault.new ≡ vault_tells vault.old }
    ensures err { IsTrue (vault_tells vault.old) →
        OnErr result ((vault_holds vault.new).files ≡ (vault_holds vault.old).files) }
    ensures told { IsTrue (conv_tells conv.old) → IsTrue (vault_tells vault.old) →
        (clock : ClockState) →
        IfOk result (λ code. Yields code (compares_token (plain_call job.now.asked.now.call.now)
        (remember_of job.now.asked.now.call.now.args.now) job.now.user.now job.now.hash.now
        job.now.token.now history)
        (scene_of_parts transaction.old (conv_holds conv.old) (vault_holds vault.old) clock
        (plain_process job.now.asked.now.process.now))
        (scene_of_parts transaction.new (conv_holds conv.new) (vault_holds vault.new) clock
        (plain_process job.now.asked.now.process.now))) }
    ensures talks { OnlyTalks transaction.old transaction.new }
{
    laws::acting();
    laws::talking();
    let Some(history) = history else {
        return Ok(Code::AuthtokErr);
    };
    let hashes = hashes_of(job.user, &history);
    if is_refused(job, hashes) {
        refuse_token(job.asked.alloc, transaction, conv)?;
        return Ok(Code::AuthtokErr);
    }
    lock_history(job, hashes, transaction, conv, vault)
}
