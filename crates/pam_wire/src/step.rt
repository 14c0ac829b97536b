ghost use Rattle.std.specs.Prelude.{◌≡◌, IfOk, IfSome, IsTrue, OnErr, is_some, true};
ghost use Rattle.pam_base.specs.Call.{is_fit};
ghost use Rattle.pam_wire.specs.Read.{number_in, text_in, name_in, value_in, switch_in, item_in, item_of_number, setting_in, start_in, list_in, call_in, step_in, step_of};

use crate::kind::call_of_number;
use crate::prefix::{FirstFrame, LENGTH, first_frame_of};
use pam_base::{
    ALL_ITEMS, AppCall, CallName, ItemName, MAX_TEXT, NoMemory, Step, Text, is_service_name,
};
use std::alloc::Global;

/// The step whose frame these bytes are; None if and only if they aren't a frame, or aren't that of
/// a call. Only a step allocates.
pub fn step_of(alloc: Global, frame: &[u8]) -> Result<Option<Step>, NoMemory>
    ensures step { IfOk result (λ step. step ≡ step_of frame.now) }
    ensures memory { OnErr result (is_some (step_of frame.now) ≡ true) }

    // A start has the name of a service, and a reply has at most 512 bytes.
    ensures fit { IfOk result (λ found. IfSome found (λ step. IsTrue (is_fit step.call))) }
{
    match first_frame_of(frame) {
        FirstFrame::Whole(size) => {
            if size == frame.len() {
                step_in(alloc, &frame[LENGTH..])
            } else {
                Ok(None)
            }
        }
        FirstFrame::Open | FirstFrame::OutOfRange => Ok(None),
    }
}

/// The step of the bytes after a length; None if and only if they aren't a call.
pub(crate) fn step_in(alloc: Global, body: &[u8]) -> Result<Option<Step>, NoMemory>
    ensures step { IfOk result (λ step. step ≡ step_in body.now) }
    ensures memory { OnErr result (is_some (step_in body.now) ≡ true) }
    ensures fit { IfOk result (λ found. IfSome found (λ step. IsTrue (is_fit step.call))) }
{
    let [number, kind, rest @ ..] = body else {
        return Ok(None);
    };
    let Some(kind) = call_of_number(*kind) else {
        return Ok(None);
    };
    let number = u32::from(*number);
    match call_in(alloc, kind, rest)? {
        Some(call) => Ok(Some(Step { number, call })),
        None => Ok(None),
    }
}

fn call_in(alloc: Global, kind: CallName, rest: &[u8]) -> Result<Option<AppCall>, NoMemory>
    ensures call { IfOk result (λ call. call ≡ call_in kind rest.now) }
    ensures memory { OnErr result (is_some (call_in kind rest.now) ≡ true) }
{
    let number = number_in(rest);
    Ok(match kind {
        CallName::Start => start_in(alloc, rest)?,
        CallName::End => number.map(|status| AppCall::End { status }),
        CallName::Run(func) => number.map(|flags| AppCall::stack(func, flags)),
        CallName::SetItem => setting_in(alloc, rest)?,
        CallName::GetItem => item_in(rest).map(|item| AppCall::GetItem { item }),
        CallName::PutEnv => text_in(alloc, rest)?.map(|text| AppCall::PutEnv { text }),
        CallName::GetEnv => name_in(alloc, rest)?.map(|name| AppCall::GetEnv { name }),
        CallName::EnvList => list_in(rest),
        CallName::FailDelay => number.map(|micros| AppCall::FailDelay { micros }),
        CallName::DelayFn => switch_in(rest).map(|on| AppCall::DelayFn { on }),
        CallName::Reply => text_in(alloc, rest)?.map(|text| AppCall::Reply { text }),
    })
}

// ---- what follows a kind

fn number_in(rest: &[u8]) -> Option<u32>
    ensures { result ≡ number_in rest.now }
{
    match rest {
        [a, b, c, d] => Some(u32::from_be_bytes([*a, *b, *c, *d])),
        _ => None,
    }
}

fn text_in(alloc: Global, rest: &[u8]) -> Result<Option<Text>, NoMemory>
    ensures text { IfOk result (λ text. text ≡ text_in rest.now) }
    ensures memory { OnErr result (is_some (text_in rest.now) ≡ true) }
{
    if rest.len() <= MAX_TEXT {
        Ok(Some(Text::from_bytes(alloc, rest)?))
    } else {
        Ok(None)
    }
}

fn name_in(alloc: Global, rest: &[u8]) -> Result<Option<Text>, NoMemory>
    ensures name { IfOk result (λ name. name ≡ name_in rest.now) }
    ensures memory { OnErr result (is_some (name_in rest.now) ≡ true) }
{
    if rest.is_empty() {
        Ok(None)
    } else {
        text_in(alloc, rest)
    }
}

// 0 for none; or 1 and the text.
fn value_in(alloc: Global, rest: &[u8]) -> Result<Option<Option<Text>>, NoMemory>
    ensures value { IfOk result (λ value. value ≡ value_in rest.now) }
    ensures memory { OnErr result (is_some (value_in rest.now) ≡ true) }
{
    match rest {
        [0] => Ok(Some(None)),
        [1, text @ ..] => Ok(text_in(alloc, text)?.map(Some)),
        _ => Ok(None),
    }
}

fn switch_in(rest: &[u8]) -> Option<bool>
    ensures { result ≡ switch_in rest.now }
{
    match rest {
        [0] => Some(false),
        [1] => Some(true),
        _ => None,
    }
}

fn item_in(rest: &[u8]) -> Option<ItemName>
    ensures { result ≡ item_in rest.now }
{
    match rest {
        [number] => item_of_number(*number),
        _ => None,
    }
}

fn item_of_number(number: u8) -> Option<ItemName>
    ensures { result ≡ item_of_number number }
{
    ALL_ITEMS
        .iter()
        .copied()
        .find(|item| item.number() == u32::from(number))
}

fn setting_in(alloc: Global, rest: &[u8]) -> Result<Option<AppCall>, NoMemory>
    ensures call { IfOk result (λ call. call ≡ setting_in rest.now) }
    ensures memory { OnErr result (is_some (setting_in rest.now) ≡ true) }
{
    let [number, value @ ..] = rest else {
        return Ok(None);
    };
    let Some(item) = item_of_number(*number) else {
        return Ok(None);
    };
    match value_in(alloc, value)? {
        Some(value) => Ok(Some(AppCall::SetItem { item, value })),
        None => Ok(None),
    }
}

// One byte for the length of the service's name, then the name, and perhaps a user.
fn start_in(alloc: Global, rest: &[u8]) -> Result<Option<AppCall>, NoMemory>
    ensures call { IfOk result (λ call. call ≡ start_in rest.now) }
    ensures memory { OnErr result (is_some (start_in rest.now) ≡ true) }
{
    let [size, more @ ..] = rest else {
        return Ok(None);
    };
    let size = usize::from(*size);
    if size > more.len() || !is_service_name(&more[..size]) {
        return Ok(None);
    }
    let Some(user) = value_in(alloc, &more[size..])? else {
        return Ok(None);
    };
    let service = Text::from_bytes(alloc, &more[..size])?;
    Ok(Some(AppCall::Start { service, user }))
}

fn list_in(rest: &[u8]) -> Option<AppCall>
    ensures { result ≡ list_in rest.now }
{
    if rest.is_empty() {
        Some(AppCall::EnvList)
    } else {
        None
    }
}
