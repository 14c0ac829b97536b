ghost use Rattle.std.specs.Prelude.{◌≡◌, ◌≤◌, ℕ};
ghost use Rattle.pam_base.specs.declared.code.Code.{Code};
ghost use Rattle.fail_delay.specs.declared.delay_fn.TheConstants.{LONGEST_ASKED};
ghost use Rattle.fail_delay.specs.DelayFn.{GivesOneNumber, IsNumberGiven};

use crate::delay::LONGEST_REQUEST;
use pam_base::Code;

/// The longest delay that can be requested, lengthened by half: 90 seconds, in microseconds.
pub const LONGEST_ASKED: u32 = 90_000_000;

/// A function from the return code of an authentication and the requested delay to the wait, both
/// in microseconds.
pub type DelayRule = Box<dyn Fn(Code, u32) -> u32>;

/// What contracts see of a delay function.
pub trait DelayTold {
    // For a code and a requested delay of up to 90 seconds the function gives this number.
    ghost delay_is: { Self → (Code → ℕ → ℕ) → Type 0 };
}

/// An application's own delay function (PAM_FAIL_DELAY, `pam_fail_delay(3)`). Unlike that page's it
/// doesn't sleep: it returns how long to wait.
#[derive(Drop)]
pub struct DelayFn {
    rule: DelayRule,
    ghost callable: { (code : Code) (asked : ℕ) → asked ≤ LONGEST_ASKED →
        DelayRule.pre rule code asked },
    ghost one_number: { GivesOneNumber (DelayRule.post rule) },
}

impl DelayTold for DelayFn {
    ghost delay_is = { λ f number. IsNumberGiven (DelayRule.post f.rule) number };
}

impl DelayFn {
    /// The function may be called for every code and every requested delay of up to 90 seconds. For
    /// each pair it always returns the same number, of at most 60 seconds.
    pub fn new(rule: DelayRule) -> Self
        requires callable { (code : Code) (asked : ℕ) → asked ≤ LONGEST_ASKED →
            DelayRule.pre rule code asked }
        requires one_number { GivesOneNumber (DelayRule.post rule) }
        ensures { (number : Code → ℕ → ℕ) → IsNumberGiven (DelayRule.post rule) number →
            ⟦<DelayFn as DelayTold>⟧.delay_is result number }
    {
        DelayFn { rule }
    }

    /// How long to wait, in microseconds: the number that the function returns for the code and the
    /// requested delay, at most 60 seconds.
    pub fn wait(&self, code: Code, asked: u32) -> u32
        requires { asked ≤ LONGEST_ASKED }
        ensures number { (number : Code → ℕ → ℕ) →
            ⟦<DelayFn as DelayTold>⟧.delay_is self.now number →
            result ≡ number code asked }
        ensures within { result ≤ LONGEST_REQUEST }
    {
        (self.rule)(code, asked)
    }
}
