ghost use Rattle.std.specs.Prelude.{◌≡◌, ◌≢◌, ℕ, List, Option, None, IsTrue, IfOk, OnErr};
ghost use Rattle.pam_base.specs.declared.code.Code.{Code};
ghost use Rattle.conv_port.specs.Conv.{ConvState};
ghost use Rattle.pam_outside.specs.Time.{ClockState};
ghost use Rattle.pam_room.specs.Call.{PlainCall};
ghost use Rattle.pam_room.specs.Module.{Plays, PlaysIn};
ghost use Rattle.pam_room.specs.Plain.{plain_call};
ghost use Rattle.pam_room.specs.State.{Scene};
ghost use Rattle.module_acts.specs.Act.{Act, asks_user, unless_answered};
ghost use Rattle.module_acts.specs.Returns.{Follows};
ghost use Rattle.module_acts.specs.Seen.{scene_seen, user_seen};

use crate::seen::CheckInput;
use pam_base::{Code, NoMemory};
use pam_outside::Vault;
use pam_room::Call;

/// A module that asks for the user's name, and then decides by files and the time.
pub trait Check {
    /// Its name.
    ghost label: { List ℕ };

    /// What its calls do if all objects that it gets are modelled.
    ghost plays: { Plays };

    /// The code of a call in which nobody is asked.
    ghost at_once: { PlainCall → Option Code };

    /// What is done once the user's name is known, by the call and the caller's user ID.
    ghost decides: { PlainCall → ℕ → List ℕ → Act };

    /// The name by which a line finds it: the last part of a path, without `.so`.
    fn name() -> &'static [u8]
        ensures { result.now ≡ label };

    /// The code of a call in which nobody is asked.
    fn at_once(call: &Call) -> Option<Code>
        ensures { result ≡ at_once (plain_call call.now) };

    /// Decides; USER is set. If an allocation fails, the files are as they were.
    fn decide(seen: &CheckInput, vault: &mut dyn Vault, moment: u64) -> Result<Code, NoMemory>
        requires { seen.now.transaction.now.items.user ≢ None }
        ensures tells { vault_tells vault.new ≡ vault_tells vault.old }
        ensures err { IsTrue (vault_tells vault.old) →
            OnErr result ((vault_holds vault.new).files ≡ (vault_holds vault.old).files) }
        ensures told { IsTrue (vault_tells vault.old) → (clock : ClockState) →
            moment ≡ clock.moment → (conv : ConvState) → IfOk result (λ code. Follows
            (decides (plain_call seen.now.call.now) seen.now.process.now.caller
            (user_seen seen.now))
            (scene_seen seen.now conv (vault_holds vault.old) clock) code
            (scene_seen seen.now conv (vault_holds vault.new) clock)) };

    /// A law: a call returns what is returned at once, or else what is decided for the user.
    fn plays_so()
        ensures { (call : PlainCall) (old new : Scene) (code : Code) →
            Follows (unless_answered (at_once call) (asks_user (decides call old.process.caller)))
            old code new → PlaysIn plays call old code new };
}
