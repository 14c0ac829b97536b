ghost use Rattle.std.specs.Prelude.{◌≡◌, ◌≢◌, None, IsOk, IsTrue, OnErr, codes};
ghost use Rattle.pam_outside.specs.Files.{VaultState};
ghost use Rattle.pam_outside.specs.Time.{ClockState};
ghost use Rattle.pam_room.specs.Plain.{plain_call, plain_process};
ghost use Rattle.pam_room.specs.State.{PlainProcess};
ghost use Rattle.module_acts.specs.Returns.{Returns, scene_of_parts};
ghost use Rattle.module_acts.specs.Arguments.{has_argument};
ghost use Rattle.module_acts.specs.OnlyTalks.{OnlyTalks};
ghost use Rattle.mod_unix.specs.Authenticate.{asks_password, authenticates, has_empty_hash, is_open, verifies_token};

use crate::job::Job;
use crate::look::{KnownPassword, look_up};
use crate::verify::verify;
use conv_port::Conv;
use module_acts::{has_argument, laws, request_delay, require_token, require_user, user_of};
use pam_base::{Code, ConvErr, DISALLOW_NULL_AUTHTOK, ItemName, Refuse};
use pam_outside::Vault;
use pam_room::{Call, Transaction, get_item};
use std::alloc::Global;

/// What authenticate returns.
#[derive(Clone, Copy)]
pub(crate) enum Authenticated {
    /// A code, which is also kept for setcred.
    Kept(Code),
    Unkept(Code),
}

/// Authenticates the user. If memory runs out, or the user can't be asked, no password was taken:
/// the comparison allocates nothing, so a wrong password can't come out as out of memory. (With
/// `try_first_pass` AUTHTOK is compared before the user is asked, which takes memory.)
pub(crate) fn authenticate(
    job: &Job,
    transaction: &mut Transaction,
    conv: &mut dyn Conv,
    vault: &mut dyn Vault,
) -> Result<Authenticated, Refuse<ConvErr>>
    ensures conv_tells { conv_tells conv.new ≡ conv_tells conv.old }
    ensures vault_tells { vault_tells vault.new ≡ vault_tells vault.old }
    ensures files { IsTrue (vault_tells vault.old) →
        (vault_holds vault.new).files ≡ (vault_holds vault.old).files }
    ensures told { IsTrue (conv_tells conv.old) → IsTrue (vault_tells vault.old) →
        (clock : ClockState) →
        Returns result (authenticates (plain_call job.now.call.now))
        (scene_of_parts transaction.old (conv_holds conv.old) (vault_holds vault.old) clock
        (plain_process job.now.process.now))
        (scene_of_parts transaction.new (conv_holds conv.new) (vault_holds vault.new) clock
        (plain_process job.now.process.now)) }
    ensures refused { transaction.old.items.user ≢ None →
        OnErr result (transaction.new.items ≡ transaction.old.items) }
    ensures talks { OnlyTalks transaction.old transaction.new }
{
    laws::talking();
    require_user(job.alloc, transaction, conv)?;
    let look = look_up(job.alloc, vault, job.process, user_of(transaction))?;
    if is_open(job.call, &look) {
        return Ok(Authenticated::Kept(Code::Success));
    }
    if has_argument(b"nodelay", job.call.args) {
        return verify_token(job, &look, transaction, conv);
    }
    request_delay(transaction, 2_000_000);
    verify_token(job, &look, transaction, conv)
}

// Whether a user without a password is let in.
fn is_open(call: &Call, look: &KnownPassword) -> bool
    ensures { result ≡ is_open (plain_call call.now) look.now }
{
    has_empty_hash(look)
        && has_argument(b"nullok", call.args)
        && !call.has_flag(DISALLOW_NULL_AUTHTOK)
}

fn has_empty_hash(look: &KnownPassword) -> bool
    ensures { result ≡ has_empty_hash look.now }
{
    match look {
        KnownPassword::Plain(hash) => hash.is_empty(),
        KnownPassword::Shadowed(entry) => entry.hash.is_empty(),
        KnownPassword::Unknown | KnownPassword::Unavailable => false,
    }
}

// Verifies the token of an earlier module, or one that it asks for.
fn verify_token(
    job: &Job,
    look: &KnownPassword,
    transaction: &mut Transaction,
    conv: &mut dyn Conv,
) -> Result<Authenticated, Refuse<ConvErr>>
    ensures tells { conv_tells conv.new ≡ conv_tells conv.old }
    ensures told { IsTrue (conv_tells conv.old) →
        (vault : VaultState) (clock : ClockState) (process : PlainProcess) →
        Returns result (verifies_token (plain_call job.now.call.now) look.now)
        (scene_of_parts transaction.old (conv_holds conv.old) vault clock process)
        (scene_of_parts transaction.new (conv_holds conv.new) vault clock process) }
    ensures first { IsTrue (has_argument (codes "use_first_pass") job.now.call.now.args.now) →
        IsOk result }
    ensures refused { OnErr result (transaction.new.items ≡ transaction.old.items) }
    ensures talks { OnlyTalks transaction.old transaction.new }
{
    module_acts::laws::act_steps();
    laws::talking();
    if has_argument(b"use_first_pass", job.call.args) {
        return match get_item(&transaction.items, ItemName::AuthTok) {
            Some(token) => Ok(Authenticated::Kept(verify(look, token))),
            None => Ok(Authenticated::Unkept(Code::AuthErr)),
        };
    }
    if !has_argument(b"try_first_pass", job.call.args) {
        return ask_password(job.alloc, look, transaction, conv);
    }
    let code = match get_item(&transaction.items, ItemName::AuthTok) {
        Some(token) => verify(look, token),
        None => return ask_password(job.alloc, look, transaction, conv),
    };
    if code == Code::Success {
        return Ok(Authenticated::Kept(Code::Success));
    }
    ask_password(job.alloc, look, transaction, conv)
}

// Asks for a token, and verifies it.
fn ask_password(
    alloc: Global,
    look: &KnownPassword,
    transaction: &mut Transaction,
    conv: &mut dyn Conv,
) -> Result<Authenticated, Refuse<ConvErr>>
    ensures tells { conv_tells conv.new ≡ conv_tells conv.old }
    ensures told { IsTrue (conv_tells conv.old) →
        (vault : VaultState) (clock : ClockState) (process : PlainProcess) →
        Returns result (asks_password look.now)
        (scene_of_parts transaction.old (conv_holds conv.old) vault clock process)
        (scene_of_parts transaction.new (conv_holds conv.new) vault clock process) }
    ensures refused { OnErr result (transaction.new.items ≡ transaction.old.items) }
    ensures talks { OnlyTalks transaction.old transaction.new }
{
    require_token(alloc, transaction, conv, false, b"Password: ")?;
    match get_item(&transaction.items, ItemName::AuthTok) {
        Some(token) => Ok(Authenticated::Kept(verify(look, token))),
        None => unreachable!(),
    }
}
