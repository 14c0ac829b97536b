//! The flags of an application's calls and of cleanups, as `_pam_types.h` has them.

/// PAM_DISALLOW_NULL_AUTHTOK, of `pam_authenticate(3)` and `pam_acct_mgmt(3)`: a user without a password is refused.
pub const DISALLOW_NULL_AUTHTOK: u32 = 0x1;
/// PAM_ESTABLISH_CRED, of `pam_setcred(3)`: sets the credentials. A call without any of the four flags means this one.
pub const ESTABLISH_CRED: u32 = 0x2;
/// PAM_DELETE_CRED, of `pam_setcred(3)`: deletes them.
pub const DELETE_CRED: u32 = 0x4;
/// PAM_REINITIALIZE_CRED, of `pam_setcred(3)`: sets them again.
pub const REINITIALIZE_CRED: u32 = 0x8;
/// PAM_REFRESH_CRED, of `pam_setcred(3)`: extends their lifetime.
pub const REFRESH_CRED: u32 = 0x10;
/// PAM_CHANGE_EXPIRED_AUTHTOK, of `pam_chauthtok(3)`: changes the password only if it has expired.
pub const CHANGE_EXPIRED_AUTHTOK: u32 = 0x20;
/// PAM_UPDATE_AUTHTOK: the second pass of `pam_chauthtok(3)`, in which a module changes the password.
pub const UPDATE_AUTHTOK: u32 = 0x2000;
/// PAM_PRELIM_CHECK: the first pass of `pam_chauthtok(3)`, in which a module only finds out whether it can change it.
pub const PRELIM_CHECK: u32 = 0x4000;
/// PAM_SILENT, of any call: modules say nothing to the user.
pub const SILENT: u32 = 0x8000;
/// PAM_DATA_REPLACE, in the status of a cleanup (`pam_set_data(3)`): the data was replaced.
pub const DATA_REPLACE: u32 = 0x2000_0000;
/// PAM_DATA_SILENT, in the status of a cleanup (`pam_end(3)`): the cleanup says nothing to the user.
pub const DATA_SILENT: u32 = 0x4000_0000;
