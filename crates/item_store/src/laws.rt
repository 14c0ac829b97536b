//! What setting one item means for all of them.
ghost use Rattle.std.specs.Prelude.{◌≡◌, ◌≢◌, ℕ, List, Option, None};
ghost use Rattle.pam_base.specs.declared.item.ItemName.{ItemName};
ghost use Rattle.item_store.specs.Items.{ItemTexts, text_of, with_text, without_tokens};

/// An item that was set has its new value, and every other item its old one.
pub fn items_are_independent()
    ensures set { (items : ItemTexts) (item : ItemName) (text : Option (List ℕ)) →
        item ≢ ItemName.Conv → item ≢ ItemName.FailDelay →
        text_of (with_text items item text) item ≡ text }
    ensures others { (items : ItemTexts) (item other : ItemName) (text : Option (List ℕ)) →
        other ≢ item → text_of (with_text items item text) other ≡ text_of items other }
{}

/// Clearing the tokens leaves neither of them, and every other item as before.
pub fn tokens_are_independent()
    ensures cleared { (items : ItemTexts) → text_of (without_tokens items) ItemName.AuthTok ≡ None }
    ensures cleared_old { (items : ItemTexts) → text_of (without_tokens items) ItemName.OldAuthTok
        ≡ None }
    ensures others { (items : ItemTexts) (other : ItemName) → other ≢ ItemName.AuthTok →
        other ≢ ItemName.OldAuthTok →
        text_of (without_tokens items) other ≡ text_of items other }
{}
