ghost use Rattle.std.specs.Prelude.{◌≡◌, [], ◌∷◌, ◌++◌, length, OnErr, OnOk, MatchOption, MatchResult};
ghost use Rattle.data_cleanup.specs.DataList.{birth_of, data_named, hold, payloads_of};

use crate::datum::Datum;
use crate::ledger::Ledger;
use indexmap::IndexMap;
use pam_base::{NoMemory, NoModuleData};
use std::alloc::Global;
use std::collections::VecDeque;
use std::marker::Model;

/// The data of one transaction, by name (`pam_set_data(3)`), and the replaced data that wait for
/// their cleanup. It can't be dropped while it may hold data: `dismiss` gives it up.
pub struct DataList {
    handle: u32,
    // Hashed by name: looking one up takes no longer if there are many.
    live: IndexMap<Vec<u8>, Datum>,
    gone: VecDeque<Datum>,
}

impl Model for DataList {
    ghost use Rattle.data_cleanup.specs.DataList.{PlainDataList};
    ghost use Rattle.data_cleanup.specs.DataListInside.{AreNamed, data_of};

    ghost Value = { PlainDataList };

    ghost view = { λ l. record {
      handle = l.handle;
      live = data_of l.live.entries;
      gone = l.gone.items;
    } };

    ghost invariant = { λ l. AreNamed l.live.entries };
}

impl DataList {
    /// The empty list of the transaction with this number. Allocates nothing before the first data
    /// are set.
    pub fn new(alloc: Global, handle: u32) -> DataList
        ensures { result ≡ record { handle = handle; live = []; gone = [] } }
    {
        DataList {
            handle,
            live: IndexMap::new(alloc),
            gone: VecDeque::new(alloc),
        }
    }

    /// Sets data under a name, and logs that, with this list's transaction and this owner
    /// (`pam_set_data(3)`). A name that is set keeps its position, and its old data goes to the end
    /// of those that were replaced; a new name comes last. If an allocation fails, the list and the
    /// log are unchanged.
    pub fn set(
        &mut self,
        alloc: Global,
        ledger: &mut Ledger,
        owner: u32,
        name: &[u8],
        payload: &[u8],
    ) -> Result<(), NoMemory>
        ensures held { OnOk result (self.new ≡
            hold self.old (birth_of (length ledger.old.births) self.old.handle owner name.now
            payload.now)) }
        ensures born { OnOk result (ledger.new ≡ record ledger.old {
          births = ledger.old.births
              ++ birth_of (length ledger.old.births) self.old.handle owner name.now payload.now
              ∷ [];
        }) }
        ensures err_list { OnErr result (self.new ≡ self.old) }
        ensures err_ledger { OnErr result (ledger.new ≡ ledger.old) }
    {
        // What may fail comes first, so that the data is made only once there is room for it.
        let key = Vec::from_slice(alloc, name)?;
        self.live.reserve(1)?;
        self.gone.reserve(1)?;
        let datum = ledger.add_birth(alloc, self.handle, owner, name, payload)?;
        if let Some(old) = self.live.insert(key, datum).unwrap() {
            self.gone.push_back(old).unwrap();
        }
        Ok(())
    }

    /// The payload of the data with this name (`pam_get_data(3)`). Returns NoModuleData if and only
    /// if the name isn't set.
    pub fn get(&self, name: &[u8]) -> Result<&[u8], NoModuleData>
        ensures { MatchResult result
            (λ payload. payloads_of (data_named self.now.live name.now) ≡ payload.now ∷ [])
            (λ _. data_named self.now.live name.now ≡ []) }
    {
        match self.live.get(name) {
            Some(datum) => Ok(datum.payload()),
            None => Err(NoModuleData),
        }
    }

    /// Takes the oldest of the replaced data; None if and only if there is none. Allocates nothing.
    pub fn take_gone(&mut self) -> Option<Datum>
        ensures { MatchOption result ((self.old.gone ≡ []) × (self.new ≡ self.old))
            (λ d. (self.old.gone ≡ d ∷ self.new.gone) × (self.new
            ≡ record self.old { gone = self.new.gone })) }
    {
        self.gone.pop_front()
    }

    /// Takes the data whose name was set last; None if and only if no name is set. Allocates
    /// nothing.
    pub fn take_newest(&mut self) -> Option<Datum>
        ensures { MatchOption result ((self.old.live ≡ []) × (self.new ≡ self.old))
            (λ d. (self.old.live ≡ self.new.live ++ d ∷ []) × (self.new
            ≡ record self.old { live = self.new.live })) }
    {
        let (_key, datum) = self.live.pop()?;
        Some(datum)
    }

    /// Drops a list without data. Allocates nothing.
    pub fn dismiss(self)
        requires live { self.live ≡ [] }
        requires gone { self.gone ≡ [] }
    {
        let DataList {
            handle: _,
            live,
            gone,
        } = self;
        live.destroy_empty();
        gone.destroy_empty();
    }
}
