//! What every crate of the runtime uses: PAM's return codes (`Code`), items (`ItemName`), message styles, flags, module
//! functions and application calls, as in `_pam_types.h`; faults; and lists and texts that contracts see as lists.
//! Begin at `code.rt` and `call.rt`.
#![tactic(auto)]

mod bytes;
mod call;
mod code;
mod fault;
mod flags;
mod item;
mod lines;
mod number;
mod parts;
mod quote;
mod sequence;
mod service_name;
mod shared_text;
mod style;
mod text;
mod white;
mod word;

pub use bytes::{first_place, lowercase};
pub use call::{ALL_CALLS, ALL_FUNCS, AppCall, CallName, Func, MAX_TEXT, Step};
pub use code::{ALL_CODES, Code, code_name, code_named, code_number, code_of, code_word};
pub use fault::{BadItem, ConvErr, Failed, FaultKind, NoMemory, NoModuleData, Refuse, ScriptKind};
pub use flags::{
    CHANGE_EXPIRED_AUTHTOK, DATA_REPLACE, DATA_SILENT, DELETE_CRED, DISALLOW_NULL_AUTHTOK,
    ESTABLISH_CRED, PRELIM_CHECK, REFRESH_CRED, REINITIALIZE_CRED, SILENT, UPDATE_AUTHTOK,
};
pub use item::{ALL_ITEMS, ItemName, item_named};
pub use lines::Lines;
pub use number::{are_digits, number_in};
pub use parts::Parts;
pub use quote::{push_quoted, quoted};
pub use sequence::{Numbers, Sequence, Texts};
pub use service_name::is_service_name;
pub use shared_text::SharedText;
pub use style::Style;
pub use text::{Text, wipe};
pub use white::is_white;
pub use word::{Word, find_any_case, find_word};
