//! What modules are made of: account files and other files, each account file read once; and steps
//! that ask for tokens, exchange several messages, request delays, set items and data. The
//! definition of a module is written in the same steps. Each step takes the rest of the module as a
//! continuation; its contract relates the state before the step to the state that the rest begins
//! in. Begin at `asking.rt` and `accounts.rt`, and for the definitions at `specs/Act.antt`.
#![tactic(auto)]

mod accounts;
mod arguments;
mod asked;
mod asking;
mod changing;
mod check;
mod check_module;
mod content;
mod ending;
pub mod laws;
mod seen;
mod speech;
mod uncheck;
mod work;
mod work_module;

pub use accounts::{ACCOUNT_LIMIT, Account, Accounts, read_shells};
pub use arguments::{has_argument, short_number};
pub use asked::WorkInput;
pub use asking::{exchange, require_token, require_user};
pub use changing::{answer_and_keep, request_delay, set_token};
pub use check::Check;
pub use check_module::CheckWork;
pub use content::{
    Content, SMALL_FILE_LIMIT, hold_named, is_rooted, read_named, release, replace_named,
};
pub use ending::code_or_conv_err;
pub use pam_room;
pub use pam_room::data_cleanup;
pub use seen::{CheckInput, account_of};
pub use speech::{show, user_of};
pub use uncheck::code_unchecked;
pub use work::Work;
pub use work_module::WorkModule;

/// The module of a check. It has no state.
pub type CheckModule<T> = WorkModule<CheckWork<T>>;
