ghost use Rattle.std.specs.Prelude.{◌≡◌, ◌≢◌, ◌&&◌, ◌==◌, not, false, true, None, Some, IsTrue, IfOk, OnErr, codes};
ghost use Rattle.conv_port.specs.Conv.{ConvState};
ghost use Rattle.pam_outside.specs.Time.{ClockState};
ghost use Rattle.module_acts.specs.Accounts.{Known};
ghost use Rattle.module_acts.specs.Act.{Acts, Yields};
ghost use Rattle.module_acts.specs.Returns.{Follows};
ghost use Rattle.module_acts.specs.Seen.{scene_seen, user_seen};
ghost use Rattle.mod_tally.specs.Settings.{plain_settings, settings_of, task_among};
ghost use Rattle.mod_tally.specs.Faillock.{task_on_file, unless_no_file, unless_spared, does_task, faillock_plays, for_user, if_any, is_no_file, locks_file, reads_tally, refused, spared_answer, task_of};

use crate::settings::{TallySettings, Task, settings_of, task_among};
use crate::tally::Failure;
use crate::tally_file::{hold_tally, is_no_file, lock_name, read_tally, tally_name};
use crate::task::task_on_failures;
use module_acts::pam_room::Call;
use module_acts::{Account, Accounts, Check, CheckInput, account_of, laws, release, user_of};
use pam_base::{Code, Func, NoMemory};
use pam_outside::Vault;

/// What `Faillock` decides.
pub struct FaillockCheck;

/// What is done for a user: what the module sees, the task, the arguments, and the names of the
/// user's file and of its lock.
#[derive(Clone, Copy)]
pub struct Job<'a> {
    pub seen: &'a CheckInput<'a>,
    pub task: Task,
    pub settings: TallySettings<'a>,
    pub file: &'a [u8],
    pub lock: &'a [u8],
}

impl Check for FaillockCheck {
    ghost label = { codes "pam_faillock" };

    ghost plays = { faillock_plays };

    ghost at_once = { λ call. refused (task_of call.func (task_among call.args)) };

    ghost decides = { λ call caller user. for_user (task_of call.func (task_among call.args))
        (settings_of call.args) user };

    fn name() -> &'static [u8] {
        b"pam_faillock"
    }

    fn at_once(call: &Call) -> Option<Code> {
        refused(task_of(call.func, task_among(call.args)))
    }

    fn decide(seen: &CheckInput, vault: &mut dyn Vault, moment: u64) -> Result<Code, NoMemory> {
        laws::act_steps();
        match task_of(seen.call.func, task_among(seen.call.args)) {
            Ok(task) => {
                let settings = settings_of(seen.call);
                check_user(seen, task, &settings, vault, moment)
            }
            Err(code) => Ok(code),
        }
    }

    fn plays_so() {
        laws::act_steps();
    }
}

fn task_of(func: Func, mode: Option<Task>) -> Result<Task, Code>
    ensures { result ≡ task_of func mode }
{
    match func {
        Func::Authenticate => match mode {
            Some(task) => Ok(task),
            None => Err(Code::ServiceErr),
        },
        Func::SetCred => Err(Code::Success),
        Func::AcctMgmt => Ok(Task::Clear),
        Func::OpenSession | Func::CloseSession | Func::ChAuthTok => Err(Code::ModuleUnknown),
    }
}

fn refused(task: Result<Task, Code>) -> Option<Code>
    ensures { result ≡ refused task }
{
    match task {
        Ok(_) => None,
        Err(code) => Some(code),
    }
}

// Looks the user's account up.
fn check_user(
    seen: &CheckInput,
    task: Task,
    settings: &TallySettings<'_>,
    vault: &mut dyn Vault,
    moment: u64,
) -> Result<Code, NoMemory>
    requires { seen.now.transaction.now.items.user ≢ None }
    ensures tells { vault_tells vault.new ≡ vault_tells vault.old }
    ensures err { IsTrue (vault_tells vault.old) →
        OnErr result ((vault_holds vault.new).files ≡ (vault_holds vault.old).files) }
    ensures told { IsTrue (vault_tells vault.old) → (clock : ClockState) → moment ≡ clock.moment →
        (conv : ConvState) →
        IfOk result (λ code. Follows (unless_no_file (is_no_file (user_seen seen.now)) task
        (plain_settings settings.now) (user_seen seen.now))
        (scene_seen seen.now conv (vault_holds vault.old) clock) code
        (scene_seen seen.now conv (vault_holds vault.new) clock)) }
{
    laws::act_steps();
    let user = user_of(seen.transaction);
    if is_no_file(user) {
        return Ok(Code::UserUnknown);
    }
    let mut accounts = Accounts::new();
    let account = account_of(seen, &mut accounts, vault)?;
    match account {
        Account::Unreadable => Ok(Code::ServiceErr),
        Account::Missing => Ok(Code::Ignore),
        Account::Found(entry) => {
            if is_spared(entry.uid, settings.locks_root) {
                return Ok(spared_answer(task));
            }
            let code = check_tally(seen, task, settings, vault, moment)?;
            Ok(code)
        }
    }
}

// Whether a user is root, who isn't locked.
fn is_spared(uid: u32, locks_root: bool) -> bool
    ensures { result ≡ (uid == 0 && not locks_root) }
{
    uid == 0 && !locks_root
}

fn spared_answer(task: Task) -> Code
    ensures { result ≡ spared_answer task }
{
    match task {
        Task::AuthFail => Code::Ignore,
        Task::Preauth | Task::AuthSucc | Task::Clear => Code::Success,
    }
}

// Does the task with the user's file.
fn check_tally(
    seen: &CheckInput,
    task: Task,
    settings: &TallySettings<'_>,
    vault: &mut dyn Vault,
    moment: u64,
) -> Result<Code, NoMemory>
    requires { seen.now.transaction.now.items.user ≢ None }
    ensures tells { vault_tells vault.new ≡ vault_tells vault.old }
    ensures err { IsTrue (vault_tells vault.old) →
        OnErr result ((vault_holds vault.new).files ≡ (vault_holds vault.old).files) }
    ensures told { IsTrue (vault_tells vault.old) → (clock : ClockState) → moment ≡ clock.moment →
        (conv : ConvState) (known : Known) →
        IfOk result (λ code. Acts (unless_spared false task (plain_settings settings.now)
        (user_seen seen.now)) known
        (scene_seen seen.now conv (vault_holds vault.old) clock) code
        (scene_seen seen.now conv (vault_holds vault.new) clock)) }
{
    laws::act_steps();
    let user = user_of(seen.transaction);
    let file = tally_name(seen.alloc, settings.folder, user)?;
    let lock = lock_name(seen.alloc, settings.folder, user)?;
    let job = Job {
        seen,
        task,
        settings: *settings,
        file: file.bytes(),
        lock: lock.bytes(),
    };
    let code = do_task(&job, vault, moment)?;
    Ok(code)
}

// A failure is recorded under the lock; the other three read the file first.
fn do_task(job: &Job, vault: &mut dyn Vault, moment: u64) -> Result<Code, NoMemory>
    ensures tells { vault_tells vault.new ≡ vault_tells vault.old }
    ensures err { IsTrue (vault_tells vault.old) →
        OnErr result ((vault_holds vault.new).files ≡ (vault_holds vault.old).files) }
    ensures told { IsTrue (vault_tells vault.old) → (clock : ClockState) → moment ≡ clock.moment →
        (conv : ConvState) →
        IfOk result (λ code. Yields code (does_task job.now.task (plain_settings job.now.settings)
        job.now.file.now job.now.lock.now)
        (scene_seen job.now.seen.now conv (vault_holds vault.old) clock)
        (scene_seen job.now.seen.now conv (vault_holds vault.new) clock)) }
{
    match job.task {
        Task::Preauth => task_on_file(job, vault, moment),
        Task::AuthFail => lock_file(job, vault, moment),
        Task::AuthSucc => clear_any(job, vault, moment),
        Task::Clear => clear_any(job, vault, moment),
    }
}

// Clears the failures, under the lock, if there are any.
fn clear_any(job: &Job, vault: &mut dyn Vault, moment: u64) -> Result<Code, NoMemory>
    ensures tells { vault_tells vault.new ≡ vault_tells vault.old }
    ensures err { IsTrue (vault_tells vault.old) →
        OnErr result ((vault_holds vault.new).files ≡ (vault_holds vault.old).files) }
    ensures told { IsTrue (vault_tells vault.old) → (clock : ClockState) → moment ≡ clock.moment →
        (conv : ConvState) →
        IfOk result (λ code. Yields code (λ act. reads_tally job.now.file.now
        (if_any job.now.task (plain_settings job.now.settings) job.now.file.now job.now.lock.now
        act))
        (scene_seen job.now.seen.now conv (vault_holds vault.old) clock)
        (scene_seen job.now.seen.now conv (vault_holds vault.new) clock)) }
{
    match read_tally(job.seen.alloc, job.seen.process, vault, job.file)? {
        Some(failures) => {
            let code = lock_if_any(job, failures.items(), vault, moment)?;
            Ok(code)
        }
        None => Ok(Code::ServiceErr),
    }
}

fn lock_if_any(
    job: &Job,
    failures: &[Failure],
    vault: &mut dyn Vault,
    moment: u64,
) -> Result<Code, NoMemory>
    ensures tells { vault_tells vault.new ≡ vault_tells vault.old }
    ensures err { IsTrue (vault_tells vault.old) →
        OnErr result ((vault_holds vault.new).files ≡ (vault_holds vault.old).files) }
    ensures told { IsTrue (vault_tells vault.old) → (clock : ClockState) → moment ≡ clock.moment →
        (conv : ConvState) →
        IfOk result (λ code. Yields code (λ act. if_any job.now.task
        (plain_settings job.now.settings) job.now.file.now job.now.lock.now act (Some failures.now))
        (scene_seen job.now.seen.now conv (vault_holds vault.old) clock)
        (scene_seen job.now.seen.now conv (vault_holds vault.new) clock)) }
{
    match failures {
        [] => Ok(Code::Success),
        [_, ..] => {
            let code = lock_file(job, vault, moment)?;
            Ok(code)
        }
    }
}

// Reads the user's file; meanwhile it is locked.
fn lock_file(job: &Job, vault: &mut dyn Vault, moment: u64) -> Result<Code, NoMemory>
    ensures tells { vault_tells vault.new ≡ vault_tells vault.old }
    ensures err { IsTrue (vault_tells vault.old) →
        OnErr result ((vault_holds vault.new).files ≡ (vault_holds vault.old).files) }
    ensures told { IsTrue (vault_tells vault.old) → (clock : ClockState) → moment ≡ clock.moment →
        (conv : ConvState) →
        IfOk result (λ code. Yields code (locks_file job.now.task (plain_settings job.now.settings)
        job.now.file.now job.now.lock.now)
        (scene_seen job.now.seen.now conv (vault_holds vault.old) clock)
        (scene_seen job.now.seen.now conv (vault_holds vault.new) clock)) }
{
    match hold_tally(job.seen.alloc, job.seen.process, vault, job.lock)? {
        Some(held) => {
            let code = task_on_file(job, vault, moment)?;
            release(vault, held);
            Ok(code)
        }
        None => Ok(Code::ServiceErr),
    }
}

// Reads the user's file.
fn task_on_file(job: &Job, vault: &mut dyn Vault, moment: u64) -> Result<Code, NoMemory>
    ensures tells { vault_tells vault.new ≡ vault_tells vault.old }
    ensures err { IsTrue (vault_tells vault.old) →
        OnErr result ((vault_holds vault.new).files ≡ (vault_holds vault.old).files) }
    ensures told { IsTrue (vault_tells vault.old) → (clock : ClockState) → moment ≡ clock.moment →
        (conv : ConvState) →
        IfOk result (λ code. Yields code (task_on_file job.now.task
        (plain_settings job.now.settings) job.now.file.now job.now.lock.now)
        (scene_seen job.now.seen.now conv (vault_holds vault.old) clock)
        (scene_seen job.now.seen.now conv (vault_holds vault.new) clock)) }
{
    match read_tally(job.seen.alloc, job.seen.process, vault, job.file)? {
        Some(failures) => {
            let code = task_on_failures(job, failures, vault, moment)?;
            Ok(code)
        }
        None => Ok(Code::ServiceErr),
    }
}
