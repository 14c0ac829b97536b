ghost use Rattle.std.specs.Prelude.{◌≡◌};
ghost use Rattle.std.specs.Option.{option_copied};
ghost use Rattle.pam_room.specs.Call.{has_flag, value_among, value_in};

use pam_base::{Func, Texts};

/// A call of a module (`pam(3)`): its function, the flags of the application's call, and the arguments of its line
/// (`pam.conf(5)`).
#[derive(Clone, Copy)]
pub struct Call<'a> {
    pub func: Func,
    pub flags: u32,
    pub args: &'a Texts,
}

impl Call<'_> {
    /// Whether the flags hold this one.
    pub fn has_flag(&self, flag: u32) -> bool
        ensures { result ≡ has_flag self.now.flags flag }
    {
        self.flags & flag > 0
    }

    /// What follows a key, as `file=`, in the arguments; if it is repeated the last one holds.
    pub fn value(&self, key: &[u8]) -> Option<&[u8]>
        ensures { option_copied result ≡ value_among key.now self.now.args.now }
    {
        let mut found = None;
        let mut rest = self.args.items();
        while let [arg, after @ ..] = rest {
            if let Some(value) = value_in(key, arg.bytes()) {
                found = Some(value);
            }
            rest = after;
        }
        found
    }
}

/// What follows a key at the beginning of an argument, if the argument begins with it.
pub fn value_in<'a>(key: &[u8], arg: &'a [u8]) -> Option<&'a [u8]>
    ensures { option_copied result ≡ value_in key.now arg.now }
{
    if arg.starts_with(key) {
        Some(&arg[key.len()..])
    } else {
        None
    }
}
