ghost use Rattle.std.specs.Prelude.{◌≡◌};
ghost use Rattle.own_files.specs.Paths.{is_of_shadow, is_shadow};

/// Whether a path is that of the shadow file.
pub fn is_shadow(path: &[u8]) -> bool
    ensures { result ≡ is_shadow path.now }
{
    path == b"/etc/shadow".as_slice()
}

/// Whether `shadow` stands in a path, as in those of the files that the group `shadow` may read: `shadow`, `gshadow`, and
/// what is kept of them as `shadow-` and `gshadow-`.
pub fn is_of_shadow(path: &[u8]) -> bool
    ensures { result ≡ is_of_shadow path.now }
{
    let mut rest = path;
    while let [_, after @ ..] = rest {
        if rest.starts_with(b"shadow") {
            return true;
        }
        rest = after;
    }
    false
}
