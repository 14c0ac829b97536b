ghost use Rattle.std.specs.Prelude.{◌≡◌, ℕ, List, Option, IsTrue, OnErr};
ghost use Rattle.pam_base.specs.declared.code.Code.{Code};
ghost use Rattle.pam_outside.specs.Time.{ClockState};
ghost use Rattle.pam_room.specs.Call.{PlainCall};
ghost use Rattle.pam_room.specs.Module.{Plays, PlaysIn};
ghost use Rattle.pam_room.specs.Plain.{plain_call};
ghost use Rattle.pam_room.specs.State.{Scene};
ghost use Rattle.module_acts.specs.Act.{Act, scene_at, unless_answered};
ghost use Rattle.module_acts.specs.Returns.{Finishes, Follows};
ghost use Rattle.module_acts.specs.SetsNoData.{SetsNoData};

use crate::asked::WorkInput;
use conv_port::Conv;
use pam_base::{Code, ConvErr, Refuse};
use pam_outside::Vault;
use pam_room::{Call, Transaction};

/// A module without state that sets no data: the code that it returns at once, or else what it
/// does.
pub trait Work {
    /// Its name.
    ghost label: { List ℕ };

    /// What its calls do if all objects that it gets are modelled.
    ghost plays: { Plays };

    /// The code of a call in which nothing is done.
    ghost at_once: { PlainCall → Option Code };

    /// What is done otherwise, by the call and the caller's user ID.
    ghost does: { PlainCall → ℕ → Act };

    /// The name by which a line finds it: the last part of a path, without `.so`.
    fn name() -> &'static [u8]
        ensures { result.now ≡ label };

    /// The code of a call in which nothing is done.
    fn at_once(call: &Call) -> Option<Code>
        ensures { result ≡ at_once (plain_call call.now) };

    /// Does the rest of the work. Returns `Named` if the conversation gave no reply; then the
    /// module returns CONV_ERR. After an error the files are as they were.
    fn work(
        asked: &WorkInput,
        transaction: &mut Transaction,
        conv: &mut dyn Conv,
        vault: &mut dyn Vault,
        moment: u64,
    ) -> Result<Code, Refuse<ConvErr>>
        ensures conv_tells { conv_tells conv.new ≡ conv_tells conv.old }
        ensures vault_tells { vault_tells vault.new ≡ vault_tells vault.old }
        ensures err { IsTrue (vault_tells vault.old) →
            OnErr result ((vault_holds vault.new).files ≡ (vault_holds vault.old).files) }
        ensures told { IsTrue (conv_tells conv.old) → IsTrue (vault_tells vault.old) →
            (clock : ClockState) → moment ≡ clock.moment → Finishes result
            (does (plain_call asked.now.call.now) asked.now.process.now.caller)
            (scene_at transaction.old (conv_holds conv.old) (vault_holds vault.old)
            clock asked.now.process.now)
            (scene_at transaction.new (conv_holds conv.new) (vault_holds vault.new)
            clock asked.now.process.now) }
        ensures sets { SetsNoData transaction.old transaction.new };

    /// A law: a call returns what is returned at once, or else does this.
    fn plays_so()
        ensures { (call : PlainCall) (old new : Scene) (code : Code) →
            Follows (unless_answered (at_once call) (does call old.process.caller)) old code new →
            PlaysIn plays call old code new };
}
