ghost use Rattle.std.specs.Prelude.{◌≡◌, ◌≤◌, ℕ, is_some, IfSome};
ghost use Rattle.pam_base.specs.declared.code.Code.{Code};
ghost use Rattle.fail_delay.specs.Wait.{wait_of};

use crate::delay_fn::{DelayFn, DelayTold, LONGEST_ASKED};
use pam_base::Code;

/// How long to wait after an authentication that returned this code, in microseconds. With a delay
/// function that is on, it is what that function returns, even after SUCCESS; otherwise the
/// requested delay if the code isn't SUCCESS. None if there is no wait and no function was called.
pub fn wait_after(delay_fn: Option<&DelayFn>, code: Code, asked: u32) -> Option<u32>
    requires { asked ≤ LONGEST_ASKED }
    ensures wait { (number : Code → ℕ → ℕ) → IfSome delay_fn.entry
        (λ f. ⟦<DelayFn as DelayTold>⟧.delay_is f.now number) →
        result ≡ wait_of (is_some delay_fn.entry) number code asked }
    ensures within { IfSome result (λ wait. wait ≤ LONGEST_ASKED) }
{
    match delay_fn {
        Some(delay_fn) => Some(delay_fn.wait(code, asked)),
        None if code == Code::Success || asked == 0 => None,
        None => Some(asked),
    }
}
