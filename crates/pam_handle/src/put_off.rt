ghost use Rattle.std.specs.Prelude.{◌≡◌, true, is_some};

use dispatch_core::Paused;
use frozen_chain::Kept;
use pam_base::Func;

/// A pending stack call: its function, the pass to resume, and the codes that the first pass of a change of token
/// cached, if that pass is the second one.
#[derive(Drop)]
pub struct PutOff {
    pub func: Func,
    pub paused: Paused,
    pub first: Kept,
    ghost incomplete: { is_some paused ≡ true },
}
