ghost use Rattle.laws_module.specs.Others.{OthersDontMatter};
ghost use Rattle.laws_module.specs.OwnEntry.{FilesStayUnlessChanged, OtherEntriesStay, OthersDontMatterToChange, OthersDontMatterUnlessChanged};
ghost use Rattle.laws_module.specs.Password.{LetInHasPassword};
ghost use Rattle.laws_module.specs.Tallies.{OtherFilesStay, OtherTalliesDontMatter};

// Each of these is a law about the definitions: its contract states it.

/// pam_unix's authenticate returns SUCCESS only if USER is set, that user has an entry in passwd,
/// and AUTHTOK is that user's password: its hash under the user's hash is the user's hash. Only a
/// user whose hash is empty needs none, if `nullok` is given and the application doesn't disallow
/// it.
pub fn who_pam_unix_lets_in_has_the_password()
    ensures { LetInHasPassword }
{}

/// Other users' lines of shadow don't matter to pam_unix's authenticate: with other files that have
/// the same passwd, and in shadow the same entry of the user or none, it returns the same code, and
/// does the same to the transaction.
pub fn other_users_dont_matter()
    ensures { OthersDontMatter }
{}

/// Nor do they matter to any other function of pam_unix. With other files that agree for the user
/// in the same way, acct_mgmt, setcred, open_session and close_session return the same code, do the
/// same to the transaction, and leave files that agree. So do both passes of chauthtok: they ask
/// the same, take the same locks, and leave the user the same entry; if both shadows have room for
/// a new hash of the user, and the time is one that a clock gives.
pub fn other_entries_dont_matter()
    ensures unless_changed { OthersDontMatterUnlessChanged }
    ensures change { OthersDontMatterToChange }
{
    account_db::laws::new_hash_is_read();
    sha_crypt::laws::hash_fits_a_field();
}

/// And they stay: each call of pam_unix, a change of token too, leaves every other user's entry of
/// shadow as it was, if shadow can be read, and every other file, even if accesses fail. The time
/// is one that a clock gives. All functions except chauthtok leave all files.
pub fn other_entries_stay()
    ensures entries { OtherEntriesStay }
    ensures files { FilesStayUnlessChanged }
{
    account_db::laws::new_hash_is_read();
    sha_crypt::laws::hash_fits_a_field();
}

/// Other users' tallies, and shadow, don't matter to pam_faillock: with other files that have the
/// same passwd and the same tally of the user, each call returns the same code, does the same to
/// the transaction, and leaves the same tally; and no call changes any other file.
pub fn other_tallies_dont_matter()
    ensures same { OtherTalliesDontMatter }
    ensures others { OtherFilesStay }
{}
