ghost use Rattle.std.specs.Prelude.{◌≡◌, ◌≤◌, None, IsTrue, OnOk, length, false};
ghost use Rattle.std.specs.List.{list_any};
ghost use Rattle.std.specs.Str.{bytes_eq};
ghost use Rattle.item_store.specs.Items.{with_text};
ghost use Rattle.conv_port.specs.Conv.{ConvState};
ghost use Rattle.pam_outside.specs.Files.{VaultState};
ghost use Rattle.pam_outside.specs.Time.{ClockState};
ghost use Rattle.pam_room.specs.State.{PlainProcess};
ghost use Rattle.module_acts.specs.Act.{Yields, Reaches};
ghost use Rattle.module_acts.specs.Returns.{scene_of_parts};
ghost use Rattle.module_acts.specs.OnlyTalks.{OnlyTalks};
ghost use Rattle.mod_history.specs.Pwhistory.{has_hash, is_enforced, is_refused, refuses_token, unsets_item, was_used};

use crate::job::Job;
use conv_port::Conv;
use item_store::Items;
use module_acts::{WorkInput, has_argument, show};
use pam_base::{Code, ItemName, MAX_TEXT, NoMemory, Refuse, Style, Text};
use pam_room::Transaction;
use sha_crypt::crypt;
use std::alloc::Global;

/// Whether a token is refused: the user has it or had it, and that matters for the caller. Nothing
/// is allocated, here and below, so a token that was used can't come out as out of memory.
pub(crate) fn is_refused(job: &Job, hashes: &[Text]) -> bool
    requires { length job.now.token.now ≤ MAX_TEXT }
    ensures { result ≡ is_refused job.now.asked.now.call.now.args.now
        job.now.asked.now.process.now.caller job.now.token.now job.now.hash.now hashes.now }
{
    is_enforced(job.asked) && was_used(job.token, job.hash, hashes)
}

/// The same, if by the user's earlier hashes it isn't refused: only hashes that are new are
/// compared.
pub(crate) fn is_refused_now(job: &Job, earlier: &[Text], hashes: &[Text]) -> bool
    requires short { length job.now.token.now ≤ MAX_TEXT }
    requires earlier { is_refused job.now.asked.now.call.now.args.now
        job.now.asked.now.process.now.caller job.now.token.now job.now.hash.now earlier.now
        ≡ false }
    ensures { result ≡ is_refused job.now.asked.now.call.now.args.now
        job.now.asked.now.process.now.caller job.now.token.now job.now.hash.now hashes.now }
{
    if !is_enforced(job.asked) {
        return false;
    }
    has_new_hash(job.token, job.hash, earlier, hashes)
}

// Whether root, too, may not use a password again.
fn is_enforced(asked: &WorkInput) -> bool
    ensures { result ≡ is_enforced asked.now.call.now.args.now asked.now.process.now.caller }
{
    asked.process.caller != 0 || has_argument(b"enforce_for_root", asked.call.args)
}

// Whether the user has the token or had it.
#[tactic(auto, unfolding(crate::specs::Pwhistory::was_used))]
fn was_used(token: &[u8], hash: &[u8], hashes: &[Text]) -> bool
    requires { length token.now ≤ MAX_TEXT }
    ensures { result ≡ was_used token.now hash.now hashes.now }
{
    if has_hash(token, hash) {
        return true;
    }
    let mut rest = hashes;
    while let [earlier, after @ ..] = rest {
        if has_hash(token, earlier.bytes()) {
            return true;
        }
        rest = after;
    }
    false
}

// Whether the user had the token, who by the earlier hashes neither has it nor had it.
#[tactic(auto, unfolding(crate::specs::Pwhistory::was_used))]
fn has_new_hash(token: &[u8], hash: &[u8], earlier: &[Text], hashes: &[Text]) -> bool
    requires short { length token.now ≤ MAX_TEXT }
    requires earlier { was_used token.now hash.now earlier.now ≡ false }
    ensures { result ≡ was_used token.now hash.now hashes.now }
{
    let mut rest = hashes;
    while let [other, after @ ..] = rest {
        if is_new_hash(token, hash, earlier, other.bytes()) {
            return true;
        }
        rest = after;
    }
    false
}

// Whether a hash is the token's. One of the earlier ones isn't.
fn is_new_hash(token: &[u8], hash: &[u8], earlier: &[Text], other: &[u8]) -> bool
    requires short { length token.now ≤ MAX_TEXT }
    requires earlier { was_used token.now hash.now earlier.now ≡ false }
    ensures { result ≡ has_hash token.now other.now }
{
    if other == hash {
        return false;
    }
    if is_among(other, earlier) {
        return false;
    }
    has_hash(token, other)
}

fn is_among(hash: &[u8], hashes: &[Text]) -> bool
    ensures { result ≡ list_any (λ t. bytes_eq t hash.now) hashes.now }
{
    hashes.iter().any(|t| t.bytes() == hash)
}

// Whether the token's hash, under this one as the setting, is this one (`crypt(3)`).
fn has_hash(token: &[u8], hash: &[u8]) -> bool
    requires { length token.now ≤ MAX_TEXT }
    ensures { result ≡ has_hash token.now hash.now }
{
    match crypt(hash, token) {
        Ok(made) => made.bytes() == hash,
        Err(_) => false,
    }
}

/// Unsets AUTHTOK, so that no later module takes the token, and sends the user a message, even if
/// the conversation fails.
pub(crate) fn refuse_token(
    alloc: Global,
    transaction: &mut Transaction,
    conv: &mut dyn Conv,
) -> Result<(), NoMemory>
    ensures tells { conv_tells conv.new ≡ conv_tells conv.old }
    ensures told { IsTrue (conv_tells conv.old) →
        (vault : VaultState) (clock : ClockState) (process : PlainProcess) →
        OnOk result (Yields Code.AuthtokErr refuses_token
        (scene_of_parts transaction.old (conv_holds conv.old) vault clock process)
        (scene_of_parts transaction.new (conv_holds conv.new) vault clock process)) }
    ensures talks { OnlyTalks transaction.old transaction.new }
{
    module_acts::laws::talking();
    unset_token(transaction);
    show(
        alloc,
        transaction,
        conv,
        Style::ErrorMsg,
        b"Password has been already used.",
    )?;
    Ok(())
}

/// Unsets AUTHTOK (`pam_set_item(3)`).
pub(crate) fn unset_token(transaction: &mut Transaction)
    ensures told { (conv : ConvState) (vault : VaultState) (clock : ClockState)
        (process : PlainProcess) →
        Reaches (unsets_item ItemName.AuthTok) (scene_of_parts transaction.old conv vault clock
        process) (scene_of_parts transaction.new conv vault clock process) }
    ensures talks { OnlyTalks transaction.old transaction.new }
{
    unset(&mut transaction.items);
}

fn unset(items: &mut Items)
    ensures { items.new ≡ with_text items.old ItemName.AuthTok None }
{
    match items.set_mod(ItemName::AuthTok, None) {
        Ok(()) => (),
        Err(Refuse::NoMemory) => unreachable!(),
        Err(Refuse::Named(_)) => unreachable!(),
    }
}
