/// Which code decides a line's action in a run of a stack, and whether codes are cached.
#[derive(Clone, Copy, Debug, PartialEq, Eq)]
pub enum PassKind {
    /// A first run: the present code decides, and is cached for later runs.
    Keep,
    /// A run by cached codes: these decide, so it runs the same lines as the run that cached them.
    Follow,
    /// A run without cached codes: the present code decides, and nothing is cached.
    Loose,
}
