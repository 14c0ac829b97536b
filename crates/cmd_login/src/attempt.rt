ghost use Rattle.std.specs.Prelude.{◌≡◌, Ok, Some, IfOk, IsTrue, string_bytes};
ghost use Rattle.std.specs.Option.{option_copied};
ghost use Rattle.pam_base.specs.ServiceName.{is_service_name};
ghost use Rattle.pam_base.specs.declared.code.Code.{Code};
ghost use Rattle.pam_outside.specs.Counts.{RisesIf};
ghost use Rattle.cmd_run.specs.pam_library.specs.AnyWorld.{is_refused};
ghost use Rattle.record_reader.specs.Object.{object_of};
ghost use Rattle.record_reader.specs.Turns.{has_write_fault};
ghost use Rattle.cmd_run.specs.Seen.{IsIdle, IsSoundIn};
ghost use Rattle.cmd_run.specs.State.{RunState};
ghost use Rattle.cmd_login.specs.Ends.{IsDenial, IsEndOfLogin, IsEndWith, closing_code};
ghost use Rattle.cmd_login.specs.Login.{AfterStart, Denies, FinalVerdict, TriesLogin, denied_line, end_call, end_code, verdict_by};
ghost use Rattle.cmd_login.specs.Reported.{EndsSilently, Goes, LoggedIn, Writes, possible_calls};

use crate::calls::{FIRST_PLACE, LAST_PLACE, LOGIN_CALLS};
use crate::course::go_through;
use crate::making::make;
use cmd_run::pam_library::{Answer, Library, Session, Told};
use cmd_run::pam_room::World;
use cmd_run::{TimeOfDay, TimeTold, stop_status};
use pam_base::{AppCall, Code, NoMemory, Step, Text, code_name, code_number};
use pam_outside::{Sink, write_all};
use record_reader::Stop;
use std::alloc::Global;

/// The result of a login.
#[derive(Clone, Copy, Debug, PartialEq, Eq)]
pub enum Verdict {
    /// The login was granted, and the session was closed again.
    Passed,
    /// A call denied it with this code, which isn't SUCCESS.
    Denied(Code),
    /// The configuration of the service is refused.
    Refused,
}

/// Logs a user in with a service, in the first of the transactions, of which none is open. The conversation of that
/// transaction asks the user for whatever the modules need, including the name if it isn't given.
///
/// The calls are those of an application that grants a login:
///
/// - `pam_start(3)`, `pam_authenticate(3)`, `pam_acct_mgmt(3)`;
/// - if that returns NEW_AUTHTOK_REQD, `pam_chauthtok(3)` with PAM_CHANGE_EXPIRED_AUTHTOK;
/// - `pam_setcred(3)` with PAM_ESTABLISH_CRED, `pam_open_session(3)`;
/// - and then at once `pam_close_session(3)`, `pam_setcred(3)` with PAM_DELETE_CRED and `pam_end(3)`.
///
/// The result line of each call is written before the next call, and no other line of its report. Before each call the
/// world's clock is set to the time of day, if that is known; without one it stands still.
///
/// The login is denied if a call before the last three returns another code than SUCCESS (after `pam_acct_mgmt(3)`
/// also NEW_AUTHTOK_REQD goes on): the transaction is ended with that code, and `denied NAME NUMBER` is written last.
/// If the configuration refuses the start, its line `refused FILE LINE NAME NUMBER` is written, and nothing follows.
///
/// If an allocation fails, the transaction is ended with BUF_ERR, and if a write fails, with SYSTEM_ERR, unless it
/// has been ended before; nothing more is written. So no transaction is open afterwards, whatever is returned.
pub fn login<K: Sink>(
    alloc: Global,
    library: &mut Library,
    service: &[u8],
    user: Option<&[u8]>,
    time: &Option<Box<dyn TimeOfDay>>,
    out: &mut K,
    world: &mut World,
) -> Result<Verdict, Stop>
    requires service { IsTrue (is_service_name service.now) }
    requires idle { IsIdle (⟦<Session as Told>⟧.seen library.old world.old) }
    ensures { let seen = ⟦<Session as Told>⟧.seen in
        LoggedIn (TriesLogin service.now (option_copied user.entry))
        (⟦<Option<Box<dyn TimeOfDay>> as TimeTold>⟧.timing time.now) result
        (seen library.old world.old) (seen library.new world.new)
        (object_of K.sink_tells K.sink_holds K.sink_faults out.old out.new) }
{
    let result = try_login(alloc, library, service, user, time, out, world);
    end_silently(alloc, library, closing_code(result), world);
    result
}

// The whole login, except that after an Err the transaction may still be open.
fn try_login<K: Sink>(
    alloc: Global,
    library: &mut Library,
    service: &[u8],
    user: Option<&[u8]>,
    time: &Option<Box<dyn TimeOfDay>>,
    out: &mut K,
    world: &mut World,
) -> Result<Verdict, Stop>
    requires service { IsTrue (is_service_name service.now) }
    requires sound { IsSoundIn (⟦<Session as Told>⟧.seen library.old world.old) }
    ensures goes { let seen = ⟦<Session as Told>⟧.seen in
        Goes (TriesLogin service.now (option_copied user.entry)) (IsEndOfLogin result)
        (⟦<Option<Box<dyn TimeOfDay>> as TimeTold>⟧.timing time.now) result
        (seen library.old world.old) (seen library.new world.new)
        (object_of K.sink_tells K.sink_holds K.sink_faults out.old out.new) }
    ensures denies { (code : Code) → result ≡ Ok (Verdict.Denied code) → IsDenial code }
{
    let start = start_of(alloc, service, user)?;
    let answer = make(alloc, library, FIRST_PLACE, start, time, out, world)?;
    if is_refused(&answer) {
        Ok(Verdict::Refused)
    } else {
        log_in(alloc, library, time, out, world)
    }
}

fn is_refused(answer: &Answer) -> bool
    ensures { result ≡ is_refused answer.now }
{
    matches!(answer, Answer::Refused(_))
}

fn start_of(alloc: Global, service: &[u8], user: Option<&[u8]>) -> Result<AppCall, NoMemory>
    ensures { IfOk result (λ call. call
        ≡ AppCall.Start service.now (option_copied user.entry)) }
{
    let service = Text::from_bytes(alloc, service)?;
    let user = match user {
        Some(name) => Some(Text::from_bytes(alloc, name)?),
        None => None,
    };
    Ok(AppCall::Start { service, user })
}

// The login after the start.
fn log_in<K: Sink>(
    alloc: Global,
    library: &mut Library,
    time: &Option<Box<dyn TimeOfDay>>,
    out: &mut K,
    world: &mut World,
) -> Result<Verdict, Stop>
    requires { IsSoundIn (⟦<Session as Told>⟧.seen library.old world.old) }
    ensures goes { let seen = ⟦<Session as Told>⟧.seen in
        Goes AfterStart (IsEndOfLogin result)
        (⟦<Option<Box<dyn TimeOfDay>> as TimeTold>⟧.timing time.now) result
        (seen library.old world.old) (seen library.new world.new)
        (object_of K.sink_tells K.sink_holds K.sink_faults out.old out.new) }
    ensures denies { (code : Code) → result ≡ Ok (Verdict.Denied code) → IsDenial code }
{
    let denied = go_through(
        alloc,
        library,
        &LOGIN_CALLS,
        Code::Success,
        time,
        out,
        world,
    )?;
    final_verdict(alloc, library, denied, time, out, world)
}

// Ends the transaction with SUCCESS or with the code that denied the login, and writes its result
// line.
fn final_verdict<K: Sink>(
    alloc: Global,
    library: &mut Library,
    denied: Option<Code>,
    time: &Option<Box<dyn TimeOfDay>>,
    out: &mut K,
    world: &mut World,
) -> Result<Verdict, Stop>
    requires { IsSoundIn (⟦<Session as Told>⟧.seen library.old world.old) }
    ensures goes { let seen = ⟦<Session as Told>⟧.seen in
        Goes (FinalVerdict denied) (IsEndWith (end_code denied))
        (⟦<Option<Box<dyn TimeOfDay>> as TimeTold>⟧.timing time.now) result
        (seen library.old world.old) (seen library.new world.new)
        (object_of K.sink_tells K.sink_holds K.sink_faults out.old out.new) }
    ensures verdict { IfOk result (λ verdict. verdict ≡ verdict_by denied) }
{
    make(
        alloc,
        library,
        LAST_PLACE,
        end_call(end_code(denied)),
        time,
        out,
        world,
    )?;
    match denied {
        None => Ok(Verdict::Passed),
        Some(code) => deny(alloc, code, out),
    }
}

// Writes the last line of a denied login.
fn deny<K: Sink>(alloc: Global, code: Code, out: &mut K) -> Result<Verdict, Stop>
    ensures writes { (s : RunState) → IsTrue (K.sink_tells out.old) →
        Writes (Denies code) possible_calls result s s (K.sink_holds out.old)
        (K.sink_holds out.new) }
    ensures verdict { IfOk result (λ verdict. verdict ≡ Verdict.Denied code) }
    ensures faults { RisesIf (has_write_fault result) (K.sink_faults out.old)
        (K.sink_faults out.new) }
    ensures sink_tells { K.sink_tells out.new ≡ K.sink_tells out.old }
{
    let line = denied_line(alloc, code)?;
    write_all(out, line.as_bytes())?;
    Ok(Verdict::Denied(code))
}

fn denied_line(alloc: Global, code: Code) -> Result<String, NoMemory>
    ensures { IfOk result (λ line. string_bytes line ≡ denied_line code) }
{
    let name = code_name(code);
    let number = code_number(code);
    Ok(format!(in alloc; "denied {name} {number}\n")?)
}

fn end_code(denied: Option<Code>) -> Code
    ensures { result ≡ end_code denied }
{
    match denied {
        None => Code::Success,
        Some(code) => code,
    }
}

fn end_call(code: Code) -> AppCall
    ensures { result ≡ end_call code }
{
    AppCall::End {
        status: code_number(code),
    }
}

// The status with which the transaction is ended if it is still open.
fn closing_code(outcome: Result<Verdict, Stop>) -> Code
    ensures { result ≡ closing_code outcome }
{
    match outcome {
        Ok(Verdict::Passed | Verdict::Refused) => Code::Success,
        Ok(Verdict::Denied(code)) => code,
        Err(stop) => stop_status(stop),
    }
}

// Ends the first transaction, if it is open, and writes nothing. It allocates nothing.
fn end_silently(alloc: Global, library: &mut Library, code: Code, world: &mut World)
    requires { IsSoundIn (⟦<Session as Told>⟧.seen library.old world.old) }
    ensures { let seen = ⟦<Session as Told>⟧.seen in
        EndsSilently code (seen library.old world.old) (seen library.new world.new) }
{
    let step = Step {
        number: 1,
        call: end_call(code),
    };
    match library.apply(alloc, world, &step) {
        Ok(_) => {}
        Err(NoMemory) => unreachable!(),
    }
}
