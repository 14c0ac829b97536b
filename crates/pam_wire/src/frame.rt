ghost use Rattle.std.specs.Prelude.{◌≡◌, ◌++◌, ◌<◌, ◌^◌, length, IfOk, IsTrue, OnOk};
ghost use Rattle.pam_wire.specs.Frame.{has_frame, frame_of, rest_of, body_of, value_bytes, answer_of, is_sound};

use crate::kind::number_of;
use pam_base::{AppCall, NoMemory, Step, Text};
use std::alloc::Global;

/// Returns the frame of a step. The step's number is at most 255, a service's name is valid, other
/// texts have at most 512 bytes, and the name of a variable has at least one.
pub fn frame_of(alloc: Global, step: &Step) -> Result<Text, NoMemory>
    requires { IsTrue (has_frame step.now) }
    ensures { IfOk result (λ frame. frame ≡ frame_of step.now) }
{
    let mut body = Vec::new(alloc);
    body.push(step.number as u8)?;
    body.push(number_of(step.call.name()))?;
    push_rest(&mut body, &step.call)?;
    let mut frame = Vec::new(alloc);
    frame.extend_from_slice(&(body.len() as u16).to_be_bytes())?;
    frame.extend_from_slice(&body)?;
    Ok(Text::from_vec(frame))
}

/// Returns the answer to a step: the length of its report in eight bytes, big-endian, and the
/// report.
pub fn answer_of(alloc: Global, report: &[u8]) -> Result<Text, NoMemory>
    ensures { IfOk result (λ answer. answer ≡ answer_of report.now) }
{
    let mut answer = Vec::new(alloc);
    answer.extend_from_slice(&(report.len() as u64).to_be_bytes())?;
    answer.extend_from_slice(report)?;
    Ok(Text::from_vec(answer))
}

// Adds what follows the kind.
fn push_rest(body: &mut Vec<u8>, call: &AppCall) -> Result<(), NoMemory>
    requires { IsTrue (is_sound call.now) }
    ensures { OnOk result (body.new.items ≡ body.old.items ++ rest_of call.now) }
{
    match call {
        AppCall::Start { service, user } => {
            body.push(service.len() as u8)?;
            body.extend_from_slice(service.bytes())?;
            push_value(body, user)?;
        }
        AppCall::SetItem { item, value } => {
            body.push(item.number() as u8)?;
            push_value(body, value)?;
        }
        AppCall::GetItem { item } => body.push(item.number() as u8)?,
        AppCall::PutEnv { text } | AppCall::Reply { text } => {
            body.extend_from_slice(text.bytes())?
        }
        AppCall::GetEnv { name } => body.extend_from_slice(name.bytes())?,
        AppCall::EnvList => {}
        AppCall::DelayFn { on } => body.push(u8::from(*on))?,
        AppCall::End { status: number }
        | AppCall::FailDelay { micros: number }
        | AppCall::Authenticate { flags: number }
        | AppCall::SetCred { flags: number }
        | AppCall::AcctMgmt { flags: number }
        | AppCall::OpenSession { flags: number }
        | AppCall::CloseSession { flags: number }
        | AppCall::ChAuthTok { flags: number } => { body.extend_from_slice(&number.to_be_bytes())? }
    }
    Ok(())
}

fn push_value(body: &mut Vec<u8>, value: &Option<Text>) -> Result<(), NoMemory>
    ensures { OnOk result (body.new.items ≡ body.old.items ++ value_bytes value.now) }
{
    match value {
        None => body.push(0)?,
        Some(text) => {
            body.push(1)?;
            body.extend_from_slice(text.bytes())?;
        }
    }
    Ok(())
}
