ghost use Rattle.std.specs.Prelude.{◌≡◌, ◌≤◌, IfOk, IsTrue, length};
ghost use Rattle.pam_handle.specs.Items.{with_conversation};
ghost use Rattle.pam_handle.specs.Plain.{plain_handle, room_in};
ghost use Rattle.pam_library.specs.Outcome.{answers_only, plain_outcome};
ghost use Rattle.pam_library.specs.InPlace.{IsOffered};

use crate::outcome::{Answer, Outcome};
use conv_port::{Conv, offer_to};
use pam_base::{MAX_TEXT, NoMemory, Text};
use pam_handle::Handle;
use pam_handle::pam_room::{Room, RoomTold};
use std::alloc::Global;

// A reply for the conversation of an open transaction.
pub(crate) fn offer_open(
    alloc: Global,
    handle: &mut Handle,
    filed_from: u64,
    text: &Text,
) -> Result<Outcome, NoMemory>
    requires { length text.now ≤ MAX_TEXT }
    ensures outcome { IfOk result (λ outcome. plain_outcome outcome
        ≡ answers_only filed_from Answer.Nothing) }
    ensures tells { let tells = ⟦<Room as RoomTold>⟧.tells in
        tells (room_in handle.new) ≡ tells (room_in handle.old) }
    ensures told { let plain = plain_handle ⟦<Room as RoomTold>⟧.plain in
        IsTrue (⟦<Room as RoomTold>⟧.tells (room_in handle.old)) →
        IsOffered result text.now (plain handle.old).room.conv (plain handle.new).room.conv }
    ensures others { let plain = plain_handle ⟦<Room as RoomTold>⟧.plain in
        plain handle.new ≡ with_conversation (plain handle.new).room.conv (plain handle.old) }
{
    handle.offer(alloc, text.bytes())?;
    Ok(Outcome::only(alloc, filed_from, Answer::Nothing))
}

// A reply for the conversation of a closed slot.
pub(crate) fn offer_closed(
    alloc: Global,
    conv: &mut Box<dyn Conv>,
    filed_from: u64,
    text: &Text,
) -> Result<Outcome, NoMemory>
    requires { length text.now ≤ MAX_TEXT }
    ensures outcome { IfOk result (λ outcome. plain_outcome outcome
        ≡ answers_only filed_from Answer.Nothing) }
    ensures tells { conv_tells conv.new ≡ conv_tells conv.old }
    ensures told { IsTrue (conv_tells conv.old) →
        IsOffered result text.now (conv_holds conv.old) (conv_holds conv.new) }
{
    offer_to(&mut **conv, alloc, text.bytes())?;
    Ok(Outcome::only(alloc, filed_from, Answer::Nothing))
}
