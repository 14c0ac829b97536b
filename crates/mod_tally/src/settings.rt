ghost use Rattle.std.specs.Prelude.{◌≡◌};
ghost use Rattle.std.specs.Option.{option_copied};
ghost use Rattle.mod_tally.specs.Settings.{number_among, plain_settings, settings_of, task_among, task_word, time_word, unlock_among};

use module_acts::pam_room::Call;
use module_acts::{has_argument, short_number};
use pam_base::Texts;

/// What is to be done for a user.
#[derive(Clone, Copy, Debug)]
pub enum Task {
    /// To see whether the user is locked.
    Preauth,
    /// To record a failure.
    AuthFail,
    /// To clear the failures of a user who isn't locked.
    AuthSucc,
    /// To clear them, locked or not.
    Clear,
}

/// The arguments: how many failures lock, within which time they count, how long a lock lasts (0
/// for ever), both in seconds, whether root may be locked, and the directory of the files.
#[derive(Clone, Copy)]
pub struct TallySettings<'a> {
    pub deny: u32,
    pub interval: u32,
    pub unlock: u32,
    pub locks_root: bool,
    pub folder: &'a [u8],
}

/// The mode of an authentication: the last of `preauth`, `authfail` and `authsucc`.
pub(crate) fn task_among(args: &Texts) -> Option<Task>
    ensures { result ≡ task_among args.now }
{
    let mut found = None;
    let mut rest = args.items();
    while let [arg, after @ ..] = rest {
        if let Some(task) = task_word(arg.bytes()) {
            found = Some(task);
        }
        rest = after;
    }
    found
}

fn task_word(arg: &[u8]) -> Option<Task>
    ensures { result ≡ task_word arg.now }
{
    if arg == b"preauth".as_slice() {
        Some(Task::Preauth)
    } else if arg == b"authfail".as_slice() {
        Some(Task::AuthFail)
    } else if arg == b"authsucc".as_slice() {
        Some(Task::AuthSucc)
    } else {
        None
    }
}

pub(crate) fn settings_of<'a>(call: &'a Call<'_>) -> TallySettings<'a>
    ensures { plain_settings result ≡ settings_of call.now.args.now }
{
    let folder = match call.value(b"dir=") {
        Some(folder) => folder,
        None => b"/var/run/faillock",
    };
    TallySettings {
        deny: number_among(b"deny=", 3, call),
        interval: number_among(b"fail_interval=", 900, call),
        unlock: unlock_among(call),
        locks_root: has_argument(b"even_deny_root", call.args),
        folder,
    }
}

fn number_among(key: &[u8], default: u32, call: &Call<'_>) -> u32
    ensures { result ≡ number_among key.now default call.now.args.now }
{
    match call.value(key) {
        Some(word) => short_number(word, 9).unwrap_or(default),
        None => default,
    }
}

fn unlock_among(call: &Call<'_>) -> u32
    ensures { result ≡ unlock_among call.now.args.now }
{
    match call.value(b"unlock_time=") {
        Some(word) => time_word(word).unwrap_or(600),
        None => 600,
    }
}

fn time_word(word: &[u8]) -> Option<u32>
    ensures { result ≡ time_word word.now }
{
    if word == b"never".as_slice() {
        Some(0)
    } else {
        short_number(word, 9)
    }
}
