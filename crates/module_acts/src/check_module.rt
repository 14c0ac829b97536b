ghost use Rattle.std.specs.Prelude.{◌≡◌, IsTrue, OnErr};
ghost use Rattle.module_acts.specs.Act.{asks_user};
ghost use Rattle.module_acts.specs.Returns.{Finishes};
ghost use Rattle.module_acts.specs.SetsNoData.{SetsNoData};

use crate::asked::WorkInput;
use crate::asking::require_user;
use crate::check::Check;
use crate::laws::talking;
use crate::seen::CheckInput;
use crate::work::Work;
use conv_port::Conv;
use pam_base::{Code, ConvErr, Refuse};
use pam_outside::Vault;
use pam_room::{Call, Transaction};
use std::marker::PhantomData;

/// The work of a check: it asks for the user's name, and decides.
pub struct CheckWork<T: Check> {
    of: PhantomData<T>,
}

impl<T: Check> Work for CheckWork<T> {
    ghost label = { T.label };

    ghost plays = { T.plays };

    ghost at_once = { T.at_once };

    ghost does = { λ call caller. asks_user (T.decides call caller) };

    fn name() -> &'static [u8] {
        T::name()
    }

    fn at_once(call: &Call) -> Option<Code> {
        T::at_once(call)
    }

    fn work(
        asked: &WorkInput,
        transaction: &mut Transaction,
        conv: &mut dyn Conv,
        vault: &mut dyn Vault,
        moment: u64,
    ) -> Result<Code, Refuse<ConvErr>> {
        talking();
        require_user(asked.alloc, transaction, conv)?;
        let seen = CheckInput {
            alloc: asked.alloc,
            call: asked.call,
            transaction: &*transaction,
            process: asked.process,
        };
        let code = T::decide(&seen, vault, moment)?;
        Ok(code)
    }

    fn plays_so() {
        T::plays_so();
    }
}
