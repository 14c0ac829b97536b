ghost use Rattle.std.specs.Prelude.{◌≡◌};
ghost use Rattle.cmd_all.specs.Exit.{audit_exit, check_exit, exit_status, frames_exit, generate_exit, login_exit, script_exit, tally_exit};

use cmd_audit::Audited;
use cmd_check::Checked;
use cmd_generate::Generated;
use cmd_login::Verdict;
use cmd_tally::Tallied;
use cmd_wire::frame_stream::FrameFault;
use pam_base::ScriptKind;
use record_reader::{Ending, Stop};

/// How the program ends, by the table of exit statuses in `pamsess(1)`. With 1 and 15 it ends only if `pamsess` isn't
/// called.
#[derive(Clone, Copy)]
pub enum Exit {
    /// The script or the frames were read to their end, the configuration is printed, the login was granted, the line
    /// is written, the failures are listed, or the report fits.
    Done = 0,
    /// The arguments are not a command, so only the usage line is written.
    Usage = 2,
    /// The configuration is refused, or a generated file couldn't be stored.
    ConfigRefused = 3,
    /// An allocation failed.
    NoMemory = 4,
    /// Reading the script, the frames or the report failed.
    ReadFault = 5,
    /// A write failed, and what is written is a prefix of a report.
    WriteFault = 6,
    /// A line of the script is refused.
    LineRefused = 7,
    /// The login was denied.
    Denied = 8,
    /// The file isn't in the form of a tally.
    TallyDamaged = 9,
    /// The tally can't be read.
    TallyUnread = 10,
    /// The report doesn't fit.
    ReportDiffers = 11,
    /// The report has more than 1,048,576 bytes.
    ReportTooLong = 12,
    /// A frame is malformed, or the input ends within one.
    BadFrame = 13,
    /// Another byte follows 65,536 frames.
    TooManyFrames = 14,
}

impl Exit {
    /// The exit status.
    pub fn status(self) -> u8
        ensures { result ≡ exit_status self }
    {
        self as u8
    }
}

impl From<Stop> for Exit {
    ghost use Rattle.std.specs.Prelude.{◌≡◌};
    ghost use Rattle.cmd_all.specs.Exit.{stop_exit};

    ghost from_gives = { λ stop exit. exit ≡ stop_exit stop };

    fn from(stop: Stop) -> Self {
        match stop {
            Stop::NoMemory => Exit::NoMemory,
            Stop::WriteFault => Exit::WriteFault,
        }
    }
}

/// After the run of a script.
pub(crate) fn script_exit(run: Result<Ending<ScriptKind>, Stop>) -> Exit
    ensures { result ≡ script_exit run }
{
    match run {
        Ok(Ending::Done) => Exit::Done,
        Ok(Ending::ReadFault) => Exit::ReadFault,
        Ok(Ending::Refused(_)) => Exit::LineRefused,
        Err(stop) => Exit::from(stop),
    }
}

/// After a check.
pub(crate) fn check_exit(found: Result<Checked, Stop>) -> Exit
    ensures { result ≡ check_exit found }
{
    match found {
        Ok(Checked::Configured) => Exit::Done,
        Ok(Checked::Refused) => Exit::ConfigRefused,
        Err(stop) => Exit::from(stop),
    }
}

/// After a login.
pub(crate) fn login_exit(verdict: Result<Verdict, Stop>) -> Exit
    ensures { result ≡ login_exit verdict }
{
    match verdict {
        Ok(Verdict::Passed) => Exit::Done,
        Ok(Verdict::Refused) => Exit::ConfigRefused,
        Ok(Verdict::Denied(_)) => Exit::Denied,
        Err(stop) => Exit::from(stop),
    }
}

/// After a generation.
pub(crate) fn generate_exit(generated: Result<Generated, Stop>) -> Exit
    ensures { result ≡ generate_exit generated }
{
    match generated {
        Ok(Generated::Written) => Exit::Done,
        Ok(Generated::Refused) => Exit::ConfigRefused,
        Err(stop) => Exit::from(stop),
    }
}

/// After a list of failures.
pub(crate) fn tally_exit(tallied: Result<Tallied, Stop>) -> Exit
    ensures { result ≡ tally_exit tallied }
{
    match tallied {
        Ok(Tallied::Listed) => Exit::Done,
        Ok(Tallied::Damaged) => Exit::TallyDamaged,
        Ok(Tallied::Unread) => Exit::TallyUnread,
        Err(stop) => Exit::from(stop),
    }
}

/// After an audit.
pub(crate) fn audit_exit(audited: Result<Audited, Stop>) -> Exit
    ensures { result ≡ audit_exit audited }
{
    match audited {
        Ok(Audited::Fits) => Exit::Done,
        Ok(Audited::Differs) => Exit::ReportDiffers,
        Ok(Audited::Refused) => Exit::ConfigRefused,
        Ok(Audited::TooLong) => Exit::ReportTooLong,
        Ok(Audited::Unread) => Exit::ReadFault,
        Err(stop) => Exit::from(stop),
    }
}

/// After the run of a front end's frames.
pub(crate) fn frames_exit(run: Result<Ending<FrameFault>, Stop>) -> Exit
    ensures { result ≡ frames_exit run }
{
    match run {
        Ok(Ending::Done) => Exit::Done,
        Ok(Ending::ReadFault) => Exit::ReadFault,
        Ok(Ending::Refused(FrameFault::BadFrame)) => Exit::BadFrame,
        Ok(Ending::Refused(FrameFault::TooManyFrames)) => Exit::TooManyFrames,
        Err(stop) => Exit::from(stop),
    }
}
