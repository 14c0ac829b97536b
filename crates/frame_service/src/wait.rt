ghost use Rattle.std.specs.Prelude.{◌≡◌};
ghost use Rattle.fail_delay.specs.DelayFn.{IsNumberGiven};
ghost use Rattle.frame_service.specs.Service.{served_wait};

use fail_delay::DelayRule;
use pam_base::Code;

/// The longest wait that the delay function returns, in microseconds.
const LONGEST_WAIT: u32 = 60_000_000;

/// How long the front end waits after an authentication: the requested delay, at most 60 seconds, and not at all after
/// SUCCESS.
pub(crate) fn served_wait(code: Code, asked: u32) -> u32
    ensures { result ≡ served_wait code asked }
{
    match code {
        Code::Success => 0,
        _ => asked.min(LONGEST_WAIT),
    }
}

/// Passes on which numbers a delay function returns.
pub(crate) fn returns_served_wait(_delay: &DelayRule)
    requires { IsNumberGiven (⟦<DelayRule as Fn(Code, u32) -> u32>⟧.post _delay.now)
        served_wait }
    ensures { IsNumberGiven (⟦<DelayRule as Fn(Code, u32) -> u32>⟧.post _delay.now)
        served_wait }
{}
