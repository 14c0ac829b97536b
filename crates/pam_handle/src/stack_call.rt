ghost use Rattle.std.specs.Prelude.{◌≡◌, length};
ghost use Rattle.dispatch_core.specs.AnyWorld.{PassStays};
ghost use Rattle.dispatch_core.specs.AnswersSoFar.{past_of};
ghost use Rattle.pam_handle.specs.AnyWorld.{BeginsUnset};
ghost use Rattle.pam_handle.specs.Around.{IsReady};
ghost use Rattle.pam_handle.specs.Pass.{kept_answers};
ghost use Rattle.pam_handle.specs.Passes.{PassesGive, authenticated_with, cached_of, first_request, is_followed, is_second, opened_with, second_request};
ghost use Rattle.pam_handle.specs.Plain.{room_in};
ghost use Rattle.pam_handle.specs.StackCalled.{StackCalled};

use crate::around::{CallTold, Calls};
use crate::delaying::sleep_after;
use crate::flags::{first_flags, is_refused};
use crate::gear::{Gear, GearTold};
use crate::handle::Handle;
use crate::pass::kind_of;
use crate::pending::{clear_after, clear_before, code_waited, resumed_from};
use data_cleanup::laws;
use dispatch_core::handler_chain::PassKind;
use dispatch_core::pam_room::World;
use dispatch_core::{Pass, PassRequest, PassTold, Paused};
use frozen_chain::Kept;
use pam_base::{Code, Func, NoMemory, UPDATE_AUTHTOK};
use std::alloc::Global;
use std::mem;

impl Handle {
    /// One of the six calls that run a stack, begun or resumed: `pam_authenticate(3)`, `pam_setcred(3)`,
    /// `pam_acct_mgmt(3)`, `pam_open_session(3)`, `pam_close_session(3)` or `pam_chauthtok(3)`. The
    /// methods `authenticate` to `chauthtok` say what each of them does.
    ///
    /// It returns SYSTEM_ERR for a change of token with one of the flags of its two passes, and
    /// otherwise ABORT while another call is pending; in both cases nothing changes. If memory runs
    /// out, nothing is pending, no delay is requested and nothing was waited.
    pub fn call(
        &mut self,
        alloc: Global,
        gear: &Gear,
        world: &mut World,
        func: Func,
        flags: u32,
    ) -> Result<Code, NoMemory>
        requires { IsReady (⟦<Calls as CallTold>⟧.seen gear.now self.old world.old) }
        ensures { StackCalled func flags result
            (⟦<Calls as CallTold>⟧.around gear.now self.old self.new world.old world.new) }
    {
        laws::nothing_grows();
        if is_refused(func, flags) {
            return Ok(Code::SystemErr);
        }
        if self.is_other_pending(func) {
            return Ok(Code::Abort);
        }
        clear_before(func, &mut self.room.transaction.items, &self.pending);
        let (mut paused, mut first) = resumed_from(self.pending.take());
        let result = self.passes(alloc, gear, world, func, flags, &mut first, &mut paused);
        let longest = self.room.transaction.delay.longest();
        clear_after(func, &mut self.room.transaction.items, &paused);
        let ended = code_waited(func, &result, &paused);
        let items = &self.room.transaction.items;
        sleep_after(
            gear,
            world,
            self.delay_on,
            longest,
            ended,
            items,
            &mut self.waited,
        );
        self.keep_pending(func, paused, first);
        result
    }

    // The passes that are left of a call: one, or in a change of token two, the second of which uses the codes that the
    // first has cached. If the call clears the tokens, and isn't resumed, none is set.
    fn passes(
        &mut self,
        alloc: Global,
        gear: &Gear,
        world: &mut World,
        func: Func,
        flags: u32,
        first: &mut Kept,
        paused: &mut Paused,
    ) -> Result<Code, NoMemory>
        requires unset { BeginsUnset func paused.old self.old.room.transaction.items }
        requires ready { IsReady (⟦<Calls as CallTold>⟧.seen gear.now self.old world.old) }
        ensures stays { let players = ⟦<Gear as GearTold>⟧.players gear.now in
            PassStays (length players) (⟦<Pass as PassTold>⟧.around players (room_in self.old)
            (room_in self.new) world.old world.new) }
        ensures give { PassesGive flags
            (record { func = func; past = past_of paused.old; first = kept_answers first.old })
            (kept_answers first.new) paused.new result
            (⟦<Calls as CallTold>⟧.around gear.now self.old self.new world.old world.new) }
    {
        dispatch_core::laws::soundness_is_transitive();
        if is_second(func, first) {
            return self.pass(alloc, gear, world, second_request(flags), first, paused);
        }
        first.drop_all();
        let mut cached = self.swap_cached(func, Kept::none());
        let request = first_request(func, flags, &cached);
        let result = self.pass(alloc, gear, world, request, &mut cached, paused);
        let own = self.swap_cached(func, cached);
        let code = result?;
        if !is_followed(func, code) {
            return Ok(code);
        }
        *first = own;
        self.pass(alloc, gear, world, second_request(flags), first, paused)
    }

    // Replaces the cached codes that belong to a call, and returns the old ones. If none belong to
    // it, it returns the new codes themselves.
    fn swap_cached(&mut self, func: Func, kept: Kept) -> Kept
        ensures cached { result ≡ cached_of func self.old.authenticated self.old.opened kept }
        ensures new { self.new ≡ record self.old {
          authenticated = authenticated_with func kept self.old.authenticated;
          opened = opened_with func kept self.old.opened;
        } }
    {
        match func {
            Func::Authenticate | Func::SetCred => mem::replace(&mut self.authenticated, kept),
            Func::OpenSession | Func::CloseSession => mem::replace(&mut self.opened, kept),
            Func::AcctMgmt | Func::ChAuthTok => kept,
        }
    }
}

// The first pass of a call, with the cached codes that belong to it.
fn first_request(func: Func, flags: u32, cached: &Kept) -> PassRequest
    ensures { result ≡ first_request func flags (kept_answers cached.now) }
{
    PassRequest {
        func,
        flags: first_flags(func, flags),
        kind: kind_of(func, cached),
    }
}

// The second pass of a change of token.
fn second_request(flags: u32) -> PassRequest
    ensures { result ≡ second_request flags }
{
    PassRequest {
        func: Func::ChAuthTok,
        flags: flags | UPDATE_AUTHTOK,
        kind: PassKind::Follow,
    }
}

// Whether only the second pass of a change of token is left: the codes of the first are there.
fn is_second(func: Func, first: &Kept) -> bool
    ensures { result ≡ is_second func first.now }
{
    func == Func::ChAuthTok && first.held()
}

// Whether a second pass follows a first one with this code: in a change of token, if it is SUCCESS.
fn is_followed(func: Func, code: Code) -> bool
    ensures { result ≡ is_followed func code }
{
    func == Func::ChAuthTok && code == Code::Success
}
