ghost use Rattle.std.specs.Prelude.{◌≡◌};
ghost use Rattle.pam_session_cli.specs.Objects.{objects_of};

/// The clock and the sleep of a run.
#[derive(Clone, Copy, Debug)]
pub enum Time {
    /// The system's clock; a wait really sleeps.
    Real,
    /// A clock at 0 until a script sets it; waits are only added up.
    Fixed,
}

/// Where the files of a run are.
#[derive(Clone, Copy, Debug)]
pub enum Files {
    /// In the file system.
    OnDisk,
    /// In memory alone.
    InMemory,
}

/// Where the conversations of a run's transactions take their replies from.
#[derive(Clone, Copy, Debug)]
pub enum Replies {
    /// From the queues that a script fills.
    Queued,
    /// From a front end, which they wait for.
    Awaited,
}

/// The objects of the outside that `main` passes to the program.
#[derive(Clone, Copy, Debug)]
pub struct Objects {
    pub time: Time,
    pub files: Files,
    pub replies: Replies,
}

/// The objects for the first word of the command line.
pub fn objects_of(words: &[String]) -> Objects
    ensures { result ≡ objects_of words.now }
{
    let others = Objects {
        time: Time::Fixed,
        files: Files::OnDisk,
        replies: Replies::Queued,
    };
    match words.split_first() {
        Some((command, _)) => match command.as_str() {
            "login" => Objects {
                time: Time::Real,
                ..others
            },
            "wire" => Objects {
                replies: Replies::Awaited,
                ..others
            },
            "generate" => Objects {
                files: Files::InMemory,
                ..others
            },
            _ => others,
        },
        None => others,
    }
}
