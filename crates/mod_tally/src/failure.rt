ghost use Rattle.std.specs.Prelude.{◌≡◌, ℕ, false, IfOk, unwrap_or, []};
ghost use Rattle.item_store.specs.Access.{is_refused};
ghost use Rattle.item_store.specs.Items.{text_of};
ghost use Rattle.item_store.specs.declared.access.Access.TheVariants.{ModuleGets};
ghost use Rattle.mod_tally.specs.Faillock.{from, from_host, new_failure};

use crate::tally::Failure;
use item_store::Items;
use module_acts::pam_room::{first_bytes, get_item};
use pam_base::{ItemName, NoMemory, Text};
use std::alloc::Global;

/// A failure, and where it comes from: the remote host, else the terminal, else the service.
pub(crate) fn new_failure(alloc: Global, moment: u64, items: &Items) -> Result<Failure, NoMemory>
    ensures { IfOk result (λ failure. failure ≡ new_failure moment items.now) }
{
    let origin = origin_of(
        text_of(items, ItemName::Rhost),
        text_of(items, ItemName::Tty),
        text_of(items, ItemName::Service),
    );
    Ok(Failure {
        moment,
        kind: origin.kind,
        source: Text::from_bytes(alloc, first_bytes(origin.source, 64))?,
    })
}

// Where a failure comes from: its letter and a text.
#[derive(Clone, Copy)]
struct Origin<'a> {
    kind: u8,
    source: &'a [u8],
}

fn origin_of<'a>(host: &'a [u8], terminal: &'a [u8], service: &'a [u8]) -> Origin<'a>
    ensures { (moment : ℕ) → from_host moment host.now terminal.now service.now
        ≡ from result.kind moment result.source.now }
{
    if !host.is_empty() {
        Origin {
            kind: b'R',
            source: host,
        }
    } else if !terminal.is_empty() {
        Origin {
            kind: b'T',
            source: terminal,
        }
    } else {
        Origin {
            kind: b'S',
            source: service,
        }
    }
}

// The text of an item; empty if it isn't set.
fn text_of(items: &Items, item: ItemName) -> &[u8]
    requires { is_refused ModuleGets item ≡ false }
    ensures { result.now ≡ unwrap_or (text_of items.now item) [] }
{
    match get_item(items, item) {
        Some(text) => text,
        None => b"",
    }
}
