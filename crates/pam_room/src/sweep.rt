ghost use Rattle.std.specs.Prelude.{◌≡◌, [], ◌++◌, length, map, reverse};
ghost use Rattle.data_cleanup.specs.Cleanup.{AwaitCleanup, swept_list, swept_ledger, ledger_after};
ghost use Rattle.pam_room.specs.Module.{notes_of, player_of, receipt_by};

use crate::module::Module;
use data_cleanup::{DataList, Datum, Ledger, Receipt, laws};
use pam_base::DATA_REPLACE;

// Has all replaced data cleaned up by their owners, the oldest first, and files the cleanup
// records. It does not allocate.
pub(crate) fn sweep(mods: &[Box<dyn Module>], datums: &mut DataList, ledger: &mut Ledger)
    requires { AwaitCleanup (length mods.now) ledger.old (datums.old.gone ++ datums.old.live) }
    ensures datums { datums.new ≡ swept_list datums.old }
    ensures ledger { ledger.new ≡ swept_ledger
        (notes_of (map (player_of label plays note breaks) mods.now)) datums.old ledger.old }
    ensures awaiting { AwaitCleanup (length mods.now) ledger.new datums.new.live }
{
    laws::cleanup_begins();
    laws::cleanup_goes_on();
    laws::cleanup_ends();
    laws::next_awaits_cleanup();
    while let Some(datum) = datums.take_gone() {
        let owner = datum.owner() as usize;
        ledger.file(tidy_by(&mods[owner], datum, DATA_REPLACE));
    }
}

// Has all data cleaned up by their owners with this status, the last name first, and files the
// cleanup records. It does not allocate.
pub(crate) fn end_data(mods: &[Box<dyn Module>], datums: DataList, ledger: &mut Ledger, status: u32)
    requires none_gone { datums.gone ≡ [] }
    requires awaiting { AwaitCleanup (length mods.now) ledger.old datums.live }
    ensures { ledger.new ≡ ledger_after
        (notes_of (map (player_of label plays note breaks) mods.now)) status
        (reverse datums.live) ledger.old }
{
    laws::cleanup_begins();
    laws::cleanup_goes_on();
    laws::cleanup_ends();
    laws::next_awaits_cleanup();
    laws::reversed_await_cleanup();
    let mut datums = datums;
    while let Some(datum) = datums.take_newest() {
        let owner = datum.owner() as usize;
        ledger.file(tidy_by(&mods[owner], datum, status));
    }
    datums.dismiss();
}

fn tidy_by(owner: &Box<dyn Module>, datum: Datum, status: u32) -> Receipt
    ensures { result ≡ receipt_by (note owner.now) datum status }
{
    owner.tidy(datum, status)
}
