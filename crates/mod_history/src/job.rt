use module_acts::WorkInput;

/// What is to be remembered: the hash of a user's present token, if the new token is taken.
#[derive(Clone, Copy)]
pub struct Job<'a> {
    pub asked: &'a WorkInput<'a>,
    pub user: &'a [u8],
    pub hash: &'a [u8],
    pub token: &'a [u8],
}
