//! What the programs share beside the program itself. The modules that they come with are made in one place:
//! `shipped_modules!` makes them, and the list `shipped_players` of specs/Shipped.antt says what each is. A
//! program that says so of its modules is refused if one of them is another.
#![tactic(auto)]

mod system_time;

pub use mod_basic::{Debug, Deny, Permit, Probe, Rootok};
pub use mod_env::Env;
pub use mod_history::{Pwhistory, Securetty, Wheel};
pub use mod_lists::{Listfile, Nologin, Shells, SucceedIf};
pub use mod_tally::Faillock;
pub use mod_unix::Unix;
pub use pam_room::Module;
pub use system_time::SystemTime;

/// The shipped modules, in the order of `shipped_players`, in a function that returns what `?` makes of an
/// `AllocError`. It is a macro since a function may not hand out trait objects that it makes.
#[macro_export]
macro_rules! shipped_modules {
    ($alloc:expr) => {{
        let alloc = $alloc;
        let mut mods: Vec<Box<dyn $crate::Module>> = Vec::new(alloc);
        mods.push(Box::new(alloc, $crate::Permit::new())?)?;
        mods.push(Box::new(alloc, $crate::Deny::new())?)?;
        mods.push(Box::new(alloc, $crate::Debug::new())?)?;
        mods.push(Box::new(alloc, $crate::Rootok::new())?)?;
        mods.push(Box::new(alloc, $crate::Probe::new())?)?;
        mods.push(Box::new(alloc, $crate::Nologin::new())?)?;
        mods.push(Box::new(alloc, $crate::Listfile::new())?)?;
        mods.push(Box::new(alloc, $crate::Shells::new())?)?;
        mods.push(Box::new(alloc, $crate::SucceedIf::new())?)?;
        mods.push(Box::new(alloc, $crate::Env::new())?)?;
        mods.push(Box::new(alloc, $crate::Unix::new())?)?;
        mods.push(Box::new(alloc, $crate::Faillock::new())?)?;
        mods.push(Box::new(alloc, $crate::Wheel::new())?)?;
        mods.push(Box::new(alloc, $crate::Securetty::new())?)?;
        mods.push(Box::new(alloc, $crate::Pwhistory::new())?)?;
        mods
    }};
}
