ghost use Rattle.std.specs.Prelude.{◌≡◌, None, is_none, is_some};

use std::marker::Model;

/// Return codes that one call keeps for a later one, or none. Contracts see None, or their list.
#[derive(Debug, Drop)]
pub struct Cached<T> {
    pub(crate) codes: Option<Vec<T>>,
}

impl<T> Model for Cached<T> {
    ghost use Rattle.std.specs.Prelude.{List, Option, option_map};

    ghost Value = { Option (List T) };

    ghost view = { λ c. option_map (λ codes. codes.items) c.codes };
}

impl<T> Cached<T> {
    /// None are kept. It does not allocate.
    pub fn none() -> Self
        ensures { result ≡ None }
    {
        Cached { codes: None }
    }

    /// Whether codes are kept, even if there are 0 of them.
    pub fn held(&self) -> bool
        ensures { result ≡ is_some self.now }
    {
        self.codes.is_some()
    }

    /// Whether none are kept.
    pub fn is_none(&self) -> bool
        ensures { result ≡ is_none self.now }
    {
        self.codes.is_none()
    }
}
