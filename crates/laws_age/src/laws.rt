ghost use Rattle.laws_age.specs.Age.{AccountsExpire, LongerMaximum, NewIsNotTooOld, OnlyAges};
ghost use Rattle.laws_age.specs.Call.{GoesByTheEntry};

// Each of these is a law about the definitions: its contract states it.

/// A longer maximum never expires sooner: with a larger maximum age, or none, and all else equal,
/// pam_unix's acct_mgmt has for an entry of shadow the same code on each day, or an earlier one in
/// the order SUCCESS, NEW_AUTHTOK_REQD, AUTHTOK_EXPIRED, ACCT_EXPIRED.
pub fn longer_maximum_expires_no_sooner()
    ensures { LongerMaximum }
{}

/// As days go by, an entry of shadow that isn't changed only goes forward in that order, and has
/// none but these four codes.
pub fn entries_only_age()
    ensures { OnlyAges }
{}

/// The code is ACCT_EXPIRED exactly if the entry gives a day on which the account expires, and that
/// day has come; on every later day it is too.
pub fn expired_accounts_stay_expired()
    ensures { AccountsExpire }
{}

/// A password that was changed today isn't too old today, whatever its maximum age: the code is
/// SUCCESS, unless the account has expired.
pub fn new_password_is_not_too_old()
    ensures { NewIsNotTooOld }
{}

/// pam_unix's acct_mgmt returns the code of the user's entry in shadow on the day of the clock, if
/// USER is set, the password field in passwd is `x`, and both files can be read.
pub fn acct_mgmt_goes_by_the_entry()
    ensures { GoesByTheEntry }
{}
