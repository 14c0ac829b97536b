ghost use Rattle.std.specs.Prelude.{◌≡◌, ◌<◌, length, codes, IfSome, IfNone};
ghost use Rattle.control_words.specs.Module.{last_part, without_suffix, name_of_module};

use pam_base::first_place;

/// The name of the module that the path in a line names (libpam: `extract_modulename`): the last
/// part of the path, without `.so`.
pub fn module_name(path: &[u8]) -> &[u8]
    ensures { result.now ≡ name_of_module path.now }
{
    without_suffix(last_part(path))
}

fn last_part(path: &[u8]) -> &[u8]
    ensures { result.now ≡ last_part path.now }
{
    let mut part = path;
    while let Some(rest) = after_slash(part) {
        part = rest;
    }
    part
}

// The part after the first slash.
fn after_slash(path: &[u8]) -> Option<&[u8]>
    ensures shorter { IfSome result (λ rest. length rest.now < length path.now) }
    ensures same_end { IfSome result (λ rest. last_part path.now ≡ last_part rest.now) }
    ensures none { IfNone result (last_part path.now ≡ path.now) }
{
    match first_place(b'/', path) {
        Some(slash) => Some(&path[slash + 1..]),
        None => None,
    }
}

fn without_suffix(name: &[u8]) -> &[u8]
    ensures { result.now ≡ without_suffix (codes ".so") name.now }
{
    name.strip_suffix(b".so").unwrap_or(name)
}
