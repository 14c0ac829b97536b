ghost use Rattle.std.specs.Prelude.{◌≡◌, IfOk};
ghost use Rattle.pam_base.specs.Code.{number_of};
ghost use Rattle.cmd_run.specs.Seen.{IsIdle, IsSoundIn};
ghost use Rattle.cmd_generate.specs.Login.{Authenticates, ComesTo, EndsWith, IsEndWith, IsOver, LoginStops, MakesCalls, NoEnd, Starts, Tries, authenticate_call, code_in, end_status, logged_in, refusal_in, start_call, step_of};

use cmd_run::pam_library::{Answer, Library, Outcome, Session, Told};
use cmd_run::pam_room::World;
use pam_base::{AppCall, Code, NoMemory, Refuse, Step, Text, code_number};
use service_load::LoadFault;
use std::alloc::Global;

/// The number of the transaction.
const NUMBER: u32 = 1;

/// The result of an authentication: its code, and how many lines it ran.
#[derive(Clone, Copy, Debug, PartialEq, Eq)]
pub(crate) struct Login {
    pub code: Code,
    pub visited: usize,
}

/// Starts the service `gen` for joe, authenticates, and ends the transaction with SUCCESS, or with BUF_ERR if an
/// allocation failed.
pub(crate) fn log_in(
    alloc: Global,
    library: &mut Library,
    world: &mut World,
) -> Result<Login, Refuse<LoadFault>>
    requires { IsIdle (⟦<Session as Told>⟧.seen library.old world.old) }
    ensures { let seen = ⟦<Session as Told>⟧.seen in
        IsOver (λ setting before. ComesTo result (logged_in setting before)
        (LoginStops setting before)) (IsEndWith (number_of (end_status result)))
        (seen library.old world.old) (seen library.new world.new) }
{
    let login = attempt(alloc, library, world);
    let status = end_status(&login);
    end(alloc, library, world, code_number(status));
    login
}

// The status with which the transaction is ended.
fn end_status(login: &Result<Login, Refuse<LoadFault>>) -> Code
    ensures { result ≡ end_status login.now }
{
    match login {
        Err(Refuse::NoMemory) => Code::BufErr,
        Ok(_) | Err(Refuse::Named(_)) => Code::Success,
    }
}

// Starts and authenticates. The transaction may be open after it.
fn attempt(
    alloc: Global,
    library: &mut Library,
    world: &mut World,
) -> Result<Login, Refuse<LoadFault>>
    requires sound { IsSoundIn (⟦<Session as Told>⟧.seen library.old world.old) }
    ensures { let seen = ⟦<Session as Told>⟧.seen in MakesCalls (Tries result) NoEnd
        (seen library.old world.old) (seen library.new world.new) }
{
    match start(alloc, library, world) {
        Err(refuse) => Err(refuse),
        Ok(()) => match authenticate(alloc, library, world) {
            Err(NoMemory) => Err(Refuse::NoMemory),
            Ok(login) => Ok(login),
        },
    }
}

fn start(alloc: Global, library: &mut Library, world: &mut World) -> Result<(), Refuse<LoadFault>>
    requires sound { IsSoundIn (⟦<Session as Told>⟧.seen library.old world.old) }
    ensures { let seen = ⟦<Session as Told>⟧.seen in MakesCalls (Starts result) NoEnd
        (seen library.old world.old) (seen library.new world.new) }
{
    let step = start_step(alloc)?;
    match library.apply(alloc, world, &step) {
        Err(NoMemory) => Err(Refuse::NoMemory),
        Ok(outcome) => {
            let Outcome { answer, .. } = outcome;
            match refusal_in(answer) {
                Some(fault) => Err(Refuse::Named(fault)),
                None => Ok(()),
            }
        }
    }
}

// Why a start is refused, if it is.
fn refusal_in(answer: Answer) -> Option<LoadFault>
    ensures { result ≡ refusal_in answer }
{
    match answer {
        Answer::Refused(fault) => Some(fault),
        _ => None,
    }
}

fn start_step(alloc: Global) -> Result<Step, NoMemory>
    ensures { IfOk result (λ step. step ≡ step_of start_call) }
{
    let service = Text::from_bytes(alloc, b"gen")?;
    let user = Text::from_bytes(alloc, b"joe")?;
    Ok(Step {
        number: NUMBER,
        call: AppCall::Start {
            service,
            user: Some(user),
        },
    })
}

fn authenticate(alloc: Global, library: &mut Library, world: &mut World) -> Result<Login, NoMemory>
    requires sound { IsSoundIn (⟦<Session as Told>⟧.seen library.old world.old) }
    ensures { let seen = ⟦<Session as Told>⟧.seen in MakesCalls (Authenticates result) NoEnd
        (seen library.old world.old) (seen library.new world.new) }
{
    let step = authenticate_step();
    match library.apply(alloc, world, &step) {
        Err(NoMemory) => Err(NoMemory),
        Ok(outcome) => Ok(Login {
            code: code_in(&outcome.answer),
            visited: outcome.trail.len(),
        }),
    }
}

fn authenticate_step() -> Step
    ensures { result ≡ step_of authenticate_call }
{
    Step {
        number: NUMBER,
        call: AppCall::Authenticate { flags: 0 },
    }
}

// The code that an authentication returns; in a started transaction each returns one.
fn code_in(answer: &Answer) -> Code
    ensures { result ≡ code_in answer.now }
{
    match answer {
        Answer::Code(code) => *code,
        _ => Code::SystemErr,
    }
}

// Ends the transaction if it is open. It allocates nothing.
fn end(alloc: Global, library: &mut Library, world: &mut World, status: u32)
    requires sound { IsSoundIn (⟦<Session as Told>⟧.seen library.old world.old) }
    ensures { let seen = ⟦<Session as Told>⟧.seen in
        EndsWith status (seen library.old world.old) (seen library.new world.new) }
{
    let step = Step {
        number: NUMBER,
        call: AppCall::End { status },
    };
    let _outcome = library.apply(alloc, world, &step).unwrap();
}
