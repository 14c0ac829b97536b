/// The directory of the service files (`pam.d(5)`).
pub(crate) const DIRECTORY: &[u8; 10] = b"/etc/pam.d";

/// What the names of its files begin with.
pub(crate) const IN_DIRECTORY: &[u8; 11] = b"/etc/pam.d/";

/// The file that is read if there is no such directory (`pam.conf(5)`).
pub(crate) const PAM_CONF: &[u8; 13] = b"/etc/pam.conf";
