ghost use Rattle.std.specs.Prelude.{◌≡◌};
ghost use Rattle.item_store.specs.Access.{refused_items, is_refused};

use pam_base::ItemName;

/// Who asks for an item, and whether to set it or to read it.
#[derive(Clone, Copy, Debug, PartialEq, Eq)]
pub enum Access {
    /// `pam_set_item(3)`, called by an application.
    ApplicationSets,
    /// `pam_get_item(3)`, called by an application.
    ApplicationGets,
    /// `pam_set_item(3)`, called by a module.
    ModuleSets,
    /// `pam_get_item(3)`, called by a module.
    ModuleGets,
}

impl Access {
    /// Whether the item is refused as a bad one.
    pub fn refuses(self, item: ItemName) -> bool
        ensures { result ≡ is_refused self item }
    {
        self.refused().contains(&item)
    }

    // The table of refused items. The tokens are for modules alone; the conversation, the delay
    // function and, after the start, the service have no text that these calls could set.
    fn refused(self) -> &'static [ItemName]
        ensures { result.now ≡ refused_items self }
    {
        match self {
            Access::ApplicationSets => &[
                ItemName::Service,
                ItemName::Conv,
                ItemName::AuthTok,
                ItemName::OldAuthTok,
                ItemName::FailDelay,
            ],
            Access::ApplicationGets => &[
                ItemName::Conv,
                ItemName::AuthTok,
                ItemName::OldAuthTok,
                ItemName::FailDelay,
            ],
            Access::ModuleSets => &[ItemName::Service, ItemName::Conv, ItemName::FailDelay],
            Access::ModuleGets => &[ItemName::Conv, ItemName::FailDelay],
        }
    }
}
