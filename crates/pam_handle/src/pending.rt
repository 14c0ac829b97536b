ghost use Rattle.std.specs.Prelude.{◌≡◌, false, None, is_some};
ghost use Rattle.std.specs.Option.{option_map};
ghost use Rattle.dispatch_core.specs.AnswersSoFar.{past_of};
ghost use Rattle.dispatch_core.specs.Pending.{first_in, is_other_pending, past_in, pending_after, pending_func, same_func};
ghost use Rattle.pam_handle.specs.Call.{clears_tokens, code_waited, items_after, items_before, request_after};
ghost use Rattle.pam_handle.specs.Pass.{kept_answers};
ghost use Rattle.pam_handle.specs.Plain.{Keeps, pending_of, plain_handle, room_in};

use crate::handle::Handle;
use crate::put_off::PutOff;
use dispatch_core::Paused;
use dispatch_core::pam_room::{Room, RoomTold};
use frozen_chain::Kept;
use item_store::Items;
use pam_base::{Code, Func, NoMemory};

impl Handle {
    /// The function of the pending stack call, if there is one: it returned INCOMPLETE, and is resumed when it is
    /// called again. Until then the others return ABORT.
    pub fn pending(&self) -> Option<Func>
        ensures { result ≡ pending_func (plain_handle ⟦<Room as RoomTold>⟧.plain self.now).pending }
    {
        match &self.pending {
            Some(put_off) => Some(put_off.func),
            None => None,
        }
    }

    // Whether a call other than this one is pending.
    pub(crate) fn is_other_pending(&self, func: Func) -> bool
        ensures { result ≡ is_other_pending
            (plain_handle ⟦<Room as RoomTold>⟧.plain self.now).pending func }
    {
        match &self.pending {
            Some(put_off) => !is_same(put_off.func, func),
            None => false,
        }
    }

    // After a pass: if it is incomplete, the call is pending; else the requested delay is dropped.
    pub(crate) fn keep_pending(&mut self, func: Func, paused: Paused, first: Kept)
        requires { (plain_handle ⟦<Room as RoomTold>⟧.plain self.old).pending ≡ None }
        ensures tells { Keeps ⟦<Room as RoomTold>⟧.tells (room_in self.old) (room_in self.new) }
        ensures plain { let plain = plain_handle ⟦<Room as RoomTold>⟧.plain in
            plain self.new ≡ record (plain self.old) {
              room = request_after paused (plain self.old).room;
              pending = pending_after func (kept_answers first) paused;
            } }
    {
        if paused.is_none() {
            self.room.transaction.delay.forget();
        } else {
            self.pending = Some(PutOff {
                func,
                paused,
                first,
            });
        }
    }
}

/// What a pending call is resumed with: its codes so far and, in the second pass of a change of
/// token, those that the first one cached. Both are empty if nothing is pending.
pub(crate) fn resumed_from(pending: Option<PutOff>) -> (Paused, Kept)
    ensures begins { is_some result.0 ≡ is_some pending }
    ensures past { past_of result.0 ≡ past_in (option_map pending_of pending) }
    ensures first { kept_answers result.1 ≡ first_in (option_map pending_of pending) }
{
    match pending {
        Some(put_off) => (put_off.paused, put_off.first),
        None => (Paused::none(), Kept::none()),
    }
}

/// Clears the tokens before a call that clears them, unless the call is resumed.
pub(crate) fn clear_before(func: Func, items: &mut Items, pending: &Option<PutOff>)
    ensures { items.new ≡ items_before func (option_map pending_of pending.now) items.old }
{
    if clears_tokens(func) && pending.is_none() {
        items.clear_tokens();
    }
}

/// Clears the tokens after a call that clears them, unless the call is incomplete.
pub(crate) fn clear_after(func: Func, items: &mut Items, paused: &Paused)
    ensures { items.new ≡ items_after func paused.now items.old }
{
    if clears_tokens(func) && paused.is_none() {
        items.clear_tokens();
    }
}

// Only these two clear the tokens (`pam_authenticate(3)`, `pam_chauthtok(3)`).
fn clears_tokens(func: Func) -> bool
    ensures { result ≡ clears_tokens func }
{
    func == Func::Authenticate || func == Func::ChAuthTok
}

/// The code after which a call waits: that of an authentication that has ended; None if it is
/// incomplete or ran out of memory.
pub(crate) fn code_waited(
    func: Func,
    answer: &Result<Code, NoMemory>,
    paused: &Paused,
) -> Option<Code>
    ensures { result ≡ code_waited func paused.now answer.now }
{
    if func == Func::Authenticate && paused.is_none() {
        answer.ok()
    } else {
        None
    }
}

fn is_same(a: Func, b: Func) -> bool
    ensures { result ≡ same_func a b }
{
    a == b
}
