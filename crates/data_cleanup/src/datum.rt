ghost use Rattle.std.specs.Prelude.{◌≡◌};

use crate::receipt::Receipt;
use pam_base::{Sequence, Text};
use std::marker::Model;

/// What a module keeps in a transaction under a name (module data, `pam_set_data(3)`). It can't be dropped or copied:
/// only `spend` consumes it.
pub struct Datum {
    id: u64,
    owner: u32,
    name: Text,
    payload: Text,
}

impl Model for Datum {
    ghost use Rattle.data_cleanup.specs.Datum.{PlainDatum};

    ghost Value = { PlainDatum };

    ghost view = { λ d. record { id = d.id; owner = d.owner; name = d.name; payload = d.payload } };
}

/// The record in the cleanup log that module data was set.
#[derive(Debug, Drop)]
pub struct Birth {
    /// The number of data set before, in all transactions.
    pub id: u64,
    /// The number of the transaction.
    pub handle: u32,
    /// The number of the module that set it, from 0.
    pub owner: u32,
    pub name: Text,
    pub payload: Text,
}

/// These records, the oldest first.
pub type Births = Sequence<Birth>;

impl Datum {
    /// Allocates nothing.
    pub(crate) fn new(id: u64, owner: u32, name: Text, payload: Text) -> Datum
        ensures { result ≡ record { id = id; owner = owner; name = name; payload = payload } }
    {
        Datum {
            id,
            owner,
            name,
            payload,
        }
    }

    /// The number of the module that set it, from 0.
    pub fn owner(&self) -> u32
        ensures { result ≡ self.now.owner }
    {
        self.owner
    }

    pub fn payload(&self) -> &[u8]
        ensures { result.now ≡ self.now.payload }
    {
        self.payload.bytes()
    }

    /// Consumes the data with its text: the cleanup record has its id, and the given status and
    /// result. Allocates nothing.
    pub fn spend(self, status: u32, note: u32) -> Receipt
        ensures { result ≡ record { id = self.id; status = status; note = note } }
    {
        let Datum {
            id,
            owner: _,
            name: _,
            payload: _,
        } = self;
        Receipt { id, status, note }
    }
}
