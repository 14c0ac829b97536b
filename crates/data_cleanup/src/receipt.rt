/// A cleanup record: the id of the data, the status that was passed to its cleanup function (the third argument of
/// `cleanup` in `pam_set_data(3)`), and the number that the cleanup returned.
#[derive(Clone, Copy, Debug, PartialEq, Eq)]
pub struct Receipt {
    pub id: u64,
    pub status: u32,
    pub note: u32,
}

/// A cleanup record in the log, with its position: how many sets there were when it was logged.
#[derive(Clone, Copy, Debug, PartialEq, Eq)]
pub struct Filed {
    pub receipt: Receipt,
    pub mark: u64,
}
