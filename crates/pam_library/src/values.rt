ghost use Rattle.std.specs.Prelude.{◌≡◌};
ghost use Rattle.pam_handle.specs.Plain.{plain_handle, room_in};
ghost use Rattle.pam_library.specs.InPlace.{StaysInside, IsCoded, IsToldAll};

use crate::outcome::{Answer, Outcome};
use crate::texts::{bytes_of, copy_of};
use pam_base::{AppCall, BadItem, Code, ItemName, NoMemory, Refuse, Text};
use pam_handle::Handle;
use pam_handle::pam_room::{Room, RoomTold};
use std::alloc::Global;

// SUCCESS, or BAD_ITEM if the call was refused.
fn coded(
    alloc: Global,
    filed_from: u64,
    done: Result<(), Refuse<BadItem>>,
) -> Result<Outcome, NoMemory>
    ensures { IsCoded filed_from done result }
{
    match done {
        Ok(()) => Ok(Outcome::code(alloc, filed_from, Code::Success)),
        Err(Refuse::Named(BadItem)) => Ok(Outcome::code(alloc, filed_from, Code::BadItem)),
        Err(Refuse::NoMemory) => Err(NoMemory),
    }
}

// Each of these is a call on a transaction without anything to report.

pub(crate) fn set_item(
    alloc: Global,
    handle: &mut Handle,
    filed_from: u64,
    item: ItemName,
    value: &Option<Text>,
) -> Result<Outcome, NoMemory>
    requires { IsToldAll (plain_handle ⟦<Room as RoomTold>⟧.plain handle.old) }
    ensures goes { let plain = plain_handle ⟦<Room as RoomTold>⟧.plain in
        StaysInside (AppCall.SetItem item value.now) filed_from (plain handle.old) result
        (plain handle.new) }
    ensures tells { let tells = ⟦<Room as RoomTold>⟧.tells in
        tells (room_in handle.new) ≡ tells (room_in handle.old) }
{
    coded(alloc, filed_from, handle.set_item(item, bytes_of(value)))
}

pub(crate) fn get_item(
    alloc: Global,
    handle: &Handle,
    filed_from: u64,
    item: ItemName,
) -> Result<Outcome, NoMemory>
    requires { IsToldAll (plain_handle ⟦<Room as RoomTold>⟧.plain handle.now) }
    ensures { let plain = plain_handle ⟦<Room as RoomTold>⟧.plain in
        StaysInside (AppCall.GetItem item) filed_from (plain handle.now) result
        (plain handle.now) }
{
    match handle.get_item(item) {
        Ok(value) => {
            let text = copy_of(alloc, value)?;
            Ok(Outcome::only(alloc, filed_from, Answer::Value(text)))
        }
        Err(BadItem) => Ok(Outcome::code(alloc, filed_from, Code::BadItem)),
    }
}

pub(crate) fn put_env(
    alloc: Global,
    handle: &mut Handle,
    filed_from: u64,
    text: &Text,
) -> Result<Outcome, NoMemory>
    requires { IsToldAll (plain_handle ⟦<Room as RoomTold>⟧.plain handle.old) }
    ensures goes { let plain = plain_handle ⟦<Room as RoomTold>⟧.plain in
        StaysInside (AppCall.PutEnv text.now) filed_from (plain handle.old) result
        (plain handle.new) }
    ensures tells { let tells = ⟦<Room as RoomTold>⟧.tells in
        tells (room_in handle.new) ≡ tells (room_in handle.old) }
{
    coded(alloc, filed_from, handle.putenv(text.bytes()))
}

pub(crate) fn get_env(
    alloc: Global,
    handle: &Handle,
    filed_from: u64,
    name: &Text,
) -> Result<Outcome, NoMemory>
    requires { IsToldAll (plain_handle ⟦<Room as RoomTold>⟧.plain handle.now) }
    ensures { let plain = plain_handle ⟦<Room as RoomTold>⟧.plain in
        StaysInside (AppCall.GetEnv name.now) filed_from (plain handle.now) result
        (plain handle.now) }
{
    let text = copy_of(alloc, handle.getenv(name.bytes()))?;
    Ok(Outcome::only(alloc, filed_from, Answer::Value(text)))
}

pub(crate) fn list_env(alloc: Global, handle: &Handle, filed_from: u64) -> Result<Outcome, NoMemory>
    requires { IsToldAll (plain_handle ⟦<Room as RoomTold>⟧.plain handle.now) }
    ensures { let plain = plain_handle ⟦<Room as RoomTold>⟧.plain in
        StaysInside AppCall.EnvList filed_from (plain handle.now) result (plain handle.now) }
{
    let texts = handle.getenvlist(alloc)?;
    Ok(Outcome::only(alloc, filed_from, Answer::List(texts)))
}
