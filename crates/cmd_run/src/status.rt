ghost use Rattle.std.specs.Prelude.{◌≡◌};
ghost use Rattle.cmd_run.specs.Whole.{ending_status, stop_status};

use pam_base::Code;
use record_reader::{Ending, Stop};

/// The status passed to pam_end for the transactions that are open when the input ends in this way.
pub(crate) fn ending_status<F: Copy + Drop>(ending: Ending<F>) -> Code
    ensures { result ≡ ending_status ending }
{
    match ending {
        Ending::Done => Code::Success,
        Ending::ReadFault => Code::SystemErr,
        Ending::Refused(_) => Code::Abort,
    }
}

/// The status passed to pam_end if the run stops and nothing more is written.
pub fn stop_status(stop: Stop) -> Code
    ensures { result ≡ stop_status stop }
{
    match stop {
        Stop::NoMemory => Code::BufErr,
        Stop::WriteFault => Code::SystemErr,
    }
}
