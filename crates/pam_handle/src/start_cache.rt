use dispatch_core::service_load::KeptTexts;
use pam_base::Texts;
use std::alloc::Global;

/// What starts keep for the next one: the names of the modules, and the texts of service files with
/// what their rules say. Each start still reads its files.
#[derive(Drop)]
pub struct StartCache {
    pub(crate) names: Texts,
    pub(crate) texts: KeptTexts,
}

impl StartCache {
    /// Keeps nothing yet. Allocates nothing.
    pub fn new(alloc: Global) -> StartCache {
        StartCache {
            names: Texts::new(alloc),
            texts: KeptTexts::new(alloc),
        }
    }
}
