ghost use Rattle.std.specs.Prelude.{◌≡◌, [], ◌∷◌, ◌++◌, length, OnOk, OnErr, IfOk};
ghost use Rattle.data_cleanup.specs.DataList.{birth_of};
ghost use Rattle.data_cleanup.specs.Ledger.{AreNumbered, IsOutstanding, IsSound};

use crate::datum::{Birth, Births, Datum};
use crate::receipt::{Filed, Receipt};
use pam_base::{NoMemory, Sequence, Text};
use std::alloc::Global;
use std::marker::Model;

/// The log of all module data that were ever set, in all transactions, and the cleanup record of each that was cleaned
/// up. It keeps their names and texts.
#[derive(Debug, Drop)]
pub struct Ledger {
    births: Births,
    // There is room for the cleanup record of each set.
    filed: Vec<Filed>,
}

impl Model for Ledger {
    ghost use Rattle.data_cleanup.specs.Ledger.{PlainLedger};
    ghost use Rattle.data_cleanup.specs.LedgerInside.{IsKept};

    ghost Value = { PlainLedger };

    ghost view = { λ l. record { births = l.births; filed = l.filed.items } };

    ghost invariant = { IsKept };
}

impl Ledger {
    /// An empty log. Allocates nothing before the first data are set.
    pub fn new(alloc: Global) -> Ledger
        ensures { result ≡ record { births = []; filed = [] } }
    {
        Ledger {
            births: Sequence::new(alloc),
            filed: Vec::new(alloc),
        }
    }

    /// All data that were set, the oldest first.
    pub fn births(&self) -> &Births
        ensures { result.now ≡ self.now.births }
    {
        &self.births
    }

    /// All cleanup records with their positions in the log, the oldest first.
    pub fn filed(&self) -> &[Filed]
        ensures { result.now ≡ self.now.filed }
    {
        &self.filed
    }

    // A law: the invariant, which a proof gets by reading a field.
    pub(crate) fn sound(&self)
        ensures sound { IsSound self.now.births self.now.filed }
        ensures numbered { AreNumbered 0 self.now.births }
    {
        let _births = &self.births;
    }

    /// Adds the record of new data, whose id is the number of records so far, and reserves room for
    /// its cleanup record. If an allocation fails, the log is unchanged.
    pub(crate) fn add_birth(
        &mut self,
        alloc: Global,
        handle: u32,
        owner: u32,
        name: &[u8],
        payload: &[u8],
    ) -> Result<Datum, NoMemory>
        ensures ledger { OnOk result (self.new ≡ record self.old {
          births = self.old.births ++ birth_of (length self.old.births) handle owner name.now
              payload.now ∷ [];
        }) }
        ensures datum { IfOk result (λ d. d ≡ record {
          id = length self.old.births;
          owner = owner;
          name = name.now;
          payload = payload.now;
        }) }
        ensures err { OnErr result (self.new ≡ self.old) }
    {
        let own_name = Text::from_bytes(alloc, name)?;
        let own_payload = Text::from_bytes(alloc, payload)?;
        let birth_name = Text::from_bytes(alloc, name)?;
        let birth_payload = Text::from_bytes(alloc, payload)?;
        let id = self.births.len();
        self.filed.reserve(id + 1 - self.filed.len())?;
        self.births.push(Birth {
            id: id as u64,
            handle,
            owner,
            name: birth_name,
            payload: birth_payload,
        })?;
        Ok(Datum::new(id as u64, owner, own_name, own_payload))
    }

    /// Logs a cleanup, with the present number of sets as its position. The room was reserved when
    /// the data was set, so this allocates nothing and can't fail. The data was set, and has no
    /// cleanup record yet.
    pub fn file(&mut self, receipt: Receipt)
        requires { IsOutstanding self.old receipt.id }
        ensures { self.new ≡ record self.old {
          filed = self.old.filed ++ record { receipt = receipt; mark = length self.old.births }
              ∷ [];
        } }
    {
        let mark = self.births.len() as u64;
        self.filed.push(Filed { receipt, mark }).unwrap();
    }
}
