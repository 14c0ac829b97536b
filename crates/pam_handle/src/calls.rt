ghost use Rattle.pam_handle.specs.Around.{IsReady};
ghost use Rattle.pam_handle.specs.StackCalled.{StackCalled};

use crate::around::{CallTold, Calls};
use crate::gear::Gear;
use crate::handle::Handle;
use dispatch_core::pam_room::World;
use pam_base::{Code, Func, NoMemory};
use std::alloc::Global;

impl Handle {
    /// Authenticates the user (`pam_authenticate(3)`): one pass over the auth stack. Its return
    /// codes are cached for `setcred`. The tokens are cleared before and after it. Then the call
    /// waits (`pam_fail_delay(3)`): if the application's delay function is on, for as long as it
    /// says, even after SUCCESS; otherwise, after any code except SUCCESS, for the longest
    /// requested delay, varied at random.
    ///
    /// If memory runs out, no codes of an authentication are cached, the tokens are cleared, and nothing was waited.
    pub fn authenticate(
        &mut self,
        alloc: Global,
        gear: &Gear,
        world: &mut World,
        flags: u32,
    ) -> Result<Code, NoMemory>
        requires { IsReady (⟦<Calls as CallTold>⟧.seen gear.now self.old world.old) }
        ensures { StackCalled Func.Authenticate flags result
            (⟦<Calls as CallTold>⟧.around gear.now self.old self.new world.old world.new) }
    {
        self.call(alloc, gear, world, Func::Authenticate, flags)
    }

    /// Sets, deletes or refreshes the user's credentials (`pam_setcred(3)`); the flags 0 mean
    /// PAM_ESTABLISH_CRED. One pass over the auth stack, which uses the return codes that the last
    /// authentication cached, if there are any.
    ///
    /// If memory runs out, cached return codes stay.
    pub fn setcred(
        &mut self,
        alloc: Global,
        gear: &Gear,
        world: &mut World,
        flags: u32,
    ) -> Result<Code, NoMemory>
        requires { IsReady (⟦<Calls as CallTold>⟧.seen gear.now self.old world.old) }
        ensures { StackCalled Func.SetCred flags result
            (⟦<Calls as CallTold>⟧.around gear.now self.old self.new world.old world.new) }
    {
        self.call(alloc, gear, world, Func::SetCred, flags)
    }

    /// Asks whether the account is valid (`pam_acct_mgmt(3)`): one pass over the account stack. Its
    /// return codes aren't cached.
    ///
    /// If memory runs out, cached return codes stay.
    pub fn acct_mgmt(
        &mut self,
        alloc: Global,
        gear: &Gear,
        world: &mut World,
        flags: u32,
    ) -> Result<Code, NoMemory>
        requires { IsReady (⟦<Calls as CallTold>⟧.seen gear.now self.old world.old) }
        ensures { StackCalled Func.AcctMgmt flags result
            (⟦<Calls as CallTold>⟧.around gear.now self.old self.new world.old world.new) }
    {
        self.call(alloc, gear, world, Func::AcctMgmt, flags)
    }

    /// Opens a session (`pam_open_session(3)`): one pass over the session stack. Its return codes
    /// are cached for `close_session`.
    ///
    /// If memory runs out, no codes of an opened session are cached.
    pub fn open_session(
        &mut self,
        alloc: Global,
        gear: &Gear,
        world: &mut World,
        flags: u32,
    ) -> Result<Code, NoMemory>
        requires { IsReady (⟦<Calls as CallTold>⟧.seen gear.now self.old world.old) }
        ensures { StackCalled Func.OpenSession flags result
            (⟦<Calls as CallTold>⟧.around gear.now self.old self.new world.old world.new) }
    {
        self.call(alloc, gear, world, Func::OpenSession, flags)
    }

    /// Closes a session (`pam_close_session(3)`): one pass over the session stack. It uses the
    /// return codes that the last opened session cached, if there are any.
    ///
    /// If memory runs out, cached return codes stay.
    pub fn close_session(
        &mut self,
        alloc: Global,
        gear: &Gear,
        world: &mut World,
        flags: u32,
    ) -> Result<Code, NoMemory>
        requires { IsReady (⟦<Calls as CallTold>⟧.seen gear.now self.old world.old) }
        ensures { StackCalled Func.CloseSession flags result
            (⟦<Calls as CallTold>⟧.around gear.now self.old self.new world.old world.new) }
    {
        self.call(alloc, gear, world, Func::CloseSession, flags)
    }

    /// Changes the user's token (`pam_chauthtok(3)`): a pass over the password stack with
    /// PAM_PRELIM_CHECK, and only if that gives SUCCESS one with PAM_UPDATE_AUTHTOK, which uses the
    /// cached return codes of the first. The tokens are cleared before the first pass and after the
    /// last. For flags that hold one of these two it returns SYSTEM_ERR and changes nothing.
    ///
    /// If memory runs out, the cached codes of authentications and sessions stay, and the tokens
    /// are cleared.
    pub fn chauthtok(
        &mut self,
        alloc: Global,
        gear: &Gear,
        world: &mut World,
        flags: u32,
    ) -> Result<Code, NoMemory>
        requires { IsReady (⟦<Calls as CallTold>⟧.seen gear.now self.old world.old) }
        ensures { StackCalled Func.ChAuthTok flags result
            (⟦<Calls as CallTold>⟧.around gear.now self.old self.new world.old world.new) }
    {
        self.call(alloc, gear, world, Func::ChAuthTok, flags)
    }
}
