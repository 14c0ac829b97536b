ghost use Rattle.std.specs.Prelude.{◌≡◌, ◌≢◌, ◌↔◌, Some, None, Ok, Err, IsOk, IsErr, IfOk, OnOk, OnErr, IsTrue};
ghost use Rattle.std.specs.Option.{option_copied};
ghost use Rattle.item_store.specs.Access.{is_refused};
ghost use Rattle.pam_base.specs.Fault.{bad_item};
ghost use Rattle.item_store.specs.Items.{no_texts, text_of, with_text, without_tokens};

use crate::access::Access;
use pam_base::{BadItem, ItemName, NoMemory, Refuse, Text};
use std::alloc::Global;
use std::marker::Model;

/// The items of one transaction, `pam_set_item(3)`: a text or nothing for each, except the conversation and the delay
/// function, which have their own calls. XAUTHDATA is a text here.
#[derive(Drop)]
pub struct Items {
    alloc: Global,
    service: Option<Text>,
    user: Option<Text>,
    tty: Option<Text>,
    rhost: Option<Text>,
    auth_tok: Option<Text>,
    old_auth_tok: Option<Text>,
    ruser: Option<Text>,
    user_prompt: Option<Text>,
    x_display: Option<Text>,
    x_auth_data: Option<Text>,
    auth_tok_type: Option<Text>,
}

impl Model for Items {
    ghost use Rattle.item_store.specs.Items.{ItemTexts};

    ghost Value = { ItemTexts };

    ghost view = { λ items. record {
      service = items.service;
      user = items.user;
      tty = items.tty;
      rhost = items.rhost;
      auth_tok = items.auth_tok;
      old_auth_tok = items.old_auth_tok;
      ruser = items.ruser;
      user_prompt = items.user_prompt;
      x_display = items.x_display;
      x_auth_data = items.x_auth_data;
      auth_tok_type = items.auth_tok_type;
    } };
}

impl Items {
    /// No item is set. Allocates nothing; the texts that are set later are copied with this allocator.
    pub fn new(alloc: Global) -> Self
        ensures { result ≡ no_texts }
    {
        Items {
            alloc,
            service: None,
            user: None,
            tty: None,
            rhost: None,
            auth_tok: None,
            old_auth_tok: None,
            ruser: None,
            user_prompt: None,
            x_display: None,
            x_auth_data: None,
            auth_tok_type: None,
        }
    }

    /// Sets SERVICE, which neither an application nor a module can set. If memory runs out, nothing changes.
    pub fn set_service(&mut self, service: &[u8]) -> Result<(), NoMemory>
        ensures ok { OnOk result (self.new ≡ with_text self.old ItemName.Service
            (Some service.now)) }
        ensures err { OnErr result (self.new ≡ self.old) }
    {
        let text = Text::from_bytes(self.alloc, service)?;
        self.put(ItemName::Service, Some(text));
        Ok(())
    }

    /// `pam_set_item(3)` of an application: stores a copy of the value; None unsets the item, which allocates nothing.
    /// BadItem exactly for SERVICE, CONV, AUTHTOK, OLDAUTHTOK and FAIL_DELAY. If the call is refused or runs out of
    /// memory, nothing changes.
    pub fn set_app(&mut self, item: ItemName, value: Option<&[u8]>) -> Result<(), Refuse<BadItem>>
        ensures ok { OnOk result (self.new ≡ with_text self.old item (option_copied value.entry)) }
        ensures err { OnErr result (self.new ≡ self.old) }
        ensures bad_item { (result ≡ Err (Refuse.Named bad_item))
            ↔ IsTrue (is_refused Access.ApplicationSets item) }
        ensures unset { value.entry ≡ None → result ≢ Err Refuse.NoMemory }
    {
        self.set(Access::ApplicationSets, item, value)
    }

    /// `pam_get_item(3)` of an application; None if the item isn't set. BadItem exactly for CONV, AUTHTOK, OLDAUTHTOK
    /// and FAIL_DELAY.
    pub fn get_app(&self, item: ItemName) -> Result<Option<&[u8]>, BadItem>
        ensures ok { IfOk result (λ text. option_copied text ≡ text_of self.now item) }
        ensures bad_item { IsErr result ↔ IsTrue (is_refused Access.ApplicationGets item) }
    {
        self.get(Access::ApplicationGets, item)
    }

    /// `pam_set_item(3)` of a module, as `set_app`; BadItem exactly for SERVICE, CONV and FAIL_DELAY.
    pub fn set_mod(&mut self, item: ItemName, value: Option<&[u8]>) -> Result<(), Refuse<BadItem>>
        ensures ok { OnOk result (self.new ≡ with_text self.old item (option_copied value.entry)) }
        ensures err { OnErr result (self.new ≡ self.old) }
        ensures bad_item { (result ≡ Err (Refuse.Named bad_item))
            ↔ IsTrue (is_refused Access.ModuleSets item) }
        ensures unset { value.entry ≡ None → result ≢ Err Refuse.NoMemory }
    {
        self.set(Access::ModuleSets, item, value)
    }

    /// `pam_get_item(3)` of a module, as `get_app`; BadItem exactly for CONV and FAIL_DELAY.
    pub fn get_mod(&self, item: ItemName) -> Result<Option<&[u8]>, BadItem>
        ensures ok { IfOk result (λ text. option_copied text ≡ text_of self.now item) }
        ensures bad_item { IsErr result ↔ IsTrue (is_refused Access.ModuleGets item) }
    {
        self.get(Access::ModuleGets, item)
    }

    /// Unsets AUTHTOK and OLDAUTHTOK (libpam: `_pam_sanitize`), and nothing else. Allocates
    /// nothing.
    pub fn clear_tokens(&mut self)
        ensures { self.new ≡ without_tokens self.old }
    {
        self.auth_tok = None;
        self.old_auth_tok = None;
    }

    fn set(
        &mut self,
        access: Access,
        item: ItemName,
        value: Option<&[u8]>,
    ) -> Result<(), Refuse<BadItem>>
        ensures ok { OnOk result (self.new ≡ with_text self.old item (option_copied value.entry)) }
        ensures err { OnErr result (self.new ≡ self.old) }
        ensures bad_item { (result ≡ Err (Refuse.Named bad_item))
            ↔ IsTrue (is_refused access item) }
        ensures unset { value.entry ≡ None → result ≢ Err Refuse.NoMemory }
    {
        if access.refuses(item) {
            return Err(Refuse::Named(BadItem));
        }
        let text = copied(self.alloc, value)?;
        self.put(item, text);
        Ok(())
    }

    fn get(&self, access: Access, item: ItemName) -> Result<Option<&[u8]>, BadItem>
        ensures ok { IfOk result (λ text. option_copied text ≡ text_of self.now item) }
        ensures bad_item { IsErr result ↔ IsTrue (is_refused access item) }
    {
        if access.refuses(item) {
            return Err(BadItem);
        }
        Ok(self.text(item).map(|text| text.bytes()))
    }

    fn text(&self, item: ItemName) -> Option<&Text>
        ensures { option_copied result ≡ text_of self.now item }
    {
        match item {
            ItemName::Service => self.service.as_ref(),
            ItemName::User => self.user.as_ref(),
            ItemName::Tty => self.tty.as_ref(),
            ItemName::Rhost => self.rhost.as_ref(),
            ItemName::AuthTok => self.auth_tok.as_ref(),
            ItemName::OldAuthTok => self.old_auth_tok.as_ref(),
            ItemName::Ruser => self.ruser.as_ref(),
            ItemName::UserPrompt => self.user_prompt.as_ref(),
            ItemName::XDisplay => self.x_display.as_ref(),
            ItemName::XAuthData => self.x_auth_data.as_ref(),
            ItemName::AuthTokType => self.auth_tok_type.as_ref(),
            ItemName::Conv | ItemName::FailDelay => None,
        }
    }

    fn put(&mut self, item: ItemName, text: Option<Text>)
        ensures { self.new ≡ with_text self.old item text }
    {
        match item {
            ItemName::Service => self.service = text,
            ItemName::User => self.user = text,
            ItemName::Tty => self.tty = text,
            ItemName::Rhost => self.rhost = text,
            ItemName::AuthTok => self.auth_tok = text,
            ItemName::OldAuthTok => self.old_auth_tok = text,
            ItemName::Ruser => self.ruser = text,
            ItemName::UserPrompt => self.user_prompt = text,
            ItemName::XDisplay => self.x_display = text,
            ItemName::XAuthData => self.x_auth_data = text,
            ItemName::AuthTokType => self.auth_tok_type = text,
            ItemName::Conv | ItemName::FailDelay => {}
        }
    }
}

fn copied(alloc: Global, value: Option<&[u8]>) -> Result<Option<Text>, NoMemory>
    ensures ok { IfOk result (λ text. text ≡ option_copied value.entry) }
    ensures nothing { value.entry ≡ None → IsOk result }
{
    match value {
        Some(bytes) => Ok(Some(Text::from_bytes(alloc, bytes)?)),
        None => Ok(None),
    }
}
