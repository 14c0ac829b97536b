ghost use Rattle.std.specs.Prelude.{◌≡◌, ◌++◌, ◌<◌, length, IfOk, IfSome, IfNone};
ghost use Rattle.pam_outside.specs.Paths.{path_of, root_before};

use pam_base::{NoMemory, Text};
use std::alloc::Global;

/// One text after another. `NoMemory` is returned if an allocation fails.
pub fn joined(alloc: Global, front: &[u8], back: &[u8]) -> Result<Text, NoMemory>
    ensures { IfOk result (λ text. text ≡ front.now ++ back.now) }
{
    let length = front.len().saturating_add(back.len());
    let mut text = Vec::with_capacity(alloc, length)?;
    text.extend_from_slice(front)?;
    text.extend_from_slice(back)?;
    Ok(Text::from_vec(text))
}

/// The path of the file with this name under a root.
pub fn path_of(alloc: Global, root: &[u8], name: &[u8]) -> Result<Text, NoMemory>
    ensures { IfOk result (λ path. path ≡ path_of root.now name.now) }
{
    joined(alloc, root_before(root), name)
}

// A root without the slashes at its end.
fn root_before(root: &[u8]) -> &[u8]
    ensures { result.now ≡ root_before root.now }
{
    let mut rest = root;
    while let Some(front) = before_slash(rest) {
        rest = front;
    }
    rest
}

// What comes before a slash at the end.
fn before_slash(root: &[u8]) -> Option<&[u8]>
    ensures shorter { IfSome result (λ front. length front.now < length root.now) }
    ensures same { IfSome result (λ front. root_before root.now ≡ root_before front.now) }
    ensures none { IfNone result (root_before root.now ≡ root.now) }
{
    match root.strip_suffix(b"/") {
        Some(front) => Some(front),
        None => None,
    }
}
