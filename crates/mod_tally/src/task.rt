ghost use Rattle.std.specs.Prelude.{◌≡◌, Ok, IsTrue, IfOk, OnErr, ◌∷◌, [], ◌++◌};
ghost use Rattle.conv_port.specs.Conv.{ConvState};
ghost use Rattle.pam_outside.specs.Time.{ClockState};
ghost use Rattle.module_acts.specs.Act.{StepsTo, Yields};
ghost use Rattle.module_acts.specs.Seen.{scene_seen};
ghost use Rattle.mod_tally.specs.Settings.{plain_settings};
ghost use Rattle.mod_tally.specs.Tally.{counting, tally_text};
ghost use Rattle.mod_tally.specs.Faillock.{task_on_failures, clears, is_denied, new_failure, tries_lock, writes_tally};

use crate::counted::{counting_text, is_locked};
use crate::failure::new_failure;
use crate::pam_faillock::Job;
use crate::settings::Task;
use crate::tally::{Failure, Failures};
use crate::tally_file::{hold_tally, set_text};
use module_acts::{CheckInput, laws, release};
use pam_base::{Code, NoMemory, Text};
use pam_outside::Vault;
use std::alloc::Global;

/// Does what is to be done with the failures in the file. If they lock the user, the result is
/// AUTH_ERR, and never NoMemory: nothing is allocated for that.
pub(crate) fn task_on_failures(
    job: &Job,
    failures: Failures,
    vault: &mut dyn Vault,
    moment: u64,
) -> Result<Code, NoMemory>
    ensures tells { vault_tells vault.new ≡ vault_tells vault.old }
    ensures err { IsTrue (vault_tells vault.old) →
        OnErr result ((vault_holds vault.new).files ≡ (vault_holds vault.old).files) }
    ensures told { IsTrue (vault_tells vault.old) → (clock : ClockState) → moment ≡ clock.moment →
        (conv : ConvState) →
        IfOk result (λ code. Yields code (task_on_failures job.now.task
        (plain_settings job.now.settings) job.now.file.now job.now.lock.now failures)
        (scene_seen job.now.seen.now conv (vault_holds vault.old) clock)
        (scene_seen job.now.seen.now conv (vault_holds vault.new) clock)) }
    ensures denied { IsTrue (is_denied job.now.task (plain_settings job.now.settings) moment
        failures) → result ≡ Ok Code.AuthErr }
{
    laws::act_steps();
    let locked = is_locked(
        job.settings.deny,
        job.settings.interval,
        job.settings.unlock,
        moment,
        failures.items(),
    );
    match job.task {
        Task::Clear => {
            let code = clear(job.seen, job.file, failures.items(), vault)?;
            Ok(code)
        }
        Task::Preauth => {
            if locked {
                return Ok(Code::AuthErr);
            }
            let code = try_lock(job, vault)?;
            Ok(code)
        }
        Task::AuthSucc => {
            if locked {
                return Ok(Code::AuthErr);
            }
            let code = clear(job.seen, job.file, failures.items(), vault)?;
            Ok(code)
        }
        Task::AuthFail => {
            if locked {
                return Ok(Code::AuthErr);
            }
            let interval = job.settings.interval;
            let code = record_failure(job.seen, interval, moment, job.file, failures, vault)?;
            Ok(code)
        }
    }
}

// Takes the lock, and lets it go.
fn try_lock(job: &Job, vault: &mut dyn Vault) -> Result<Code, NoMemory>
    ensures tells { vault_tells vault.new ≡ vault_tells vault.old }
    ensures files { IsTrue (vault_tells vault.old) →
        (vault_holds vault.new).files ≡ (vault_holds vault.old).files }
    ensures told { IsTrue (vault_tells vault.old) →
        IfOk result (λ code. StepsTo (tries_lock job.now.lock.now) code
        job.now.seen.now.process.now (vault_holds vault.old) (vault_holds vault.new)) }
{
    match hold_tally(job.seen.alloc, job.seen.process, vault, job.lock)? {
        Some(held) => {
            release(vault, held);
            Ok(Code::Success)
        }
        None => Ok(Code::ServiceErr),
    }
}

// Clears the failures, if there are any.
fn clear(
    seen: &CheckInput,
    name: &[u8],
    failures: &[Failure],
    vault: &mut dyn Vault,
) -> Result<Code, NoMemory>
    ensures tells { vault_tells vault.new ≡ vault_tells vault.old }
    ensures err { IsTrue (vault_tells vault.old) →
        OnErr result ((vault_holds vault.new).files ≡ (vault_holds vault.old).files) }
    ensures told { IsTrue (vault_tells vault.old) →
        IfOk result (λ code. StepsTo (clears name.now failures.now) code seen.now.process.now
        (vault_holds vault.old) (vault_holds vault.new)) }
{
    match failures {
        [] => Ok(Code::Success),
        [_, ..] => {
            let text = counting_text(seen.alloc, 0, &[])?;
            let code = set_text(seen, vault, name, text.bytes(), Code::Success)?;
            Ok(code)
        }
    }
}

// Records a failure after those in the file, and drops those that don't count any more.
fn record_failure(
    seen: &CheckInput,
    interval: u32,
    moment: u64,
    name: &[u8],
    failures: Failures,
    vault: &mut dyn Vault,
) -> Result<Code, NoMemory>
    ensures tells { vault_tells vault.new ≡ vault_tells vault.old }
    ensures err { IsTrue (vault_tells vault.old) →
        OnErr result ((vault_holds vault.new).files ≡ (vault_holds vault.old).files) }
    ensures told { IsTrue (vault_tells vault.old) →
        IfOk result (λ code. StepsTo (writes_tally name.now (counting interval (failures
        ++ new_failure moment seen.now.transaction.now.items ∷ [])) Code.Ignore) code
        seen.now.process.now (vault_holds vault.old) (vault_holds vault.new)) }
{
    let failure = new_failure(seen.alloc, moment, &seen.transaction.items)?;
    let text = text_with(seen.alloc, interval, failures, failure)?;
    let code = set_text(seen, vault, name, text.bytes(), Code::Ignore)?;
    Ok(code)
}

// The text of the failures that count, with this one after those in the file.
fn text_with(
    alloc: Global,
    interval: u32,
    failures: Failures,
    failure: Failure,
) -> Result<Text, NoMemory>
    ensures { IfOk result (λ text. text ≡ tally_text
        (counting interval (failures ++ failure ∷ []))) }
{
    let mut all = failures;
    all.push(failure)?;
    let text = counting_text(alloc, interval, all.items())?;
    Ok(text)
}
