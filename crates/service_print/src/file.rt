use pam_base::{Sequence, Text};

/// A file of a printed configuration.
#[derive(Debug, Drop)]
pub struct File {
    /// Its name in the directory of the service files (`pam.d(5)`).
    pub name: Text,
    pub text: Text,
}

/// Files, the service's first, then those of its substacks in the order of their numbers.
pub type Files = Sequence<File>;
