ghost use Rattle.std.specs.Prelude.{◌≡◌, ◌≤◌, ◌<◌, ◌+◌, ◌++◌, ◌==◌, if◌then◌else◌, [], drop, length, List, ℕ, IsTrue, IfOk, OnErr, is_err, vec_capacity};
ghost use Rattle.pam_outside.specs.Counts.{RisesIf};
ghost use Rattle.record_reader.specs.Taking.{Adds, Fills, Finds, IsFound};

use crate::stepping::{FirstItem, Stepping};
use pam_base::{Failed, NoMemory, wipe};
use pam_outside::Source;
use std::alloc::Global;
use std::marker::Model;

const CHUNK: usize = 512;

/// Room for the 581 bytes that an incomplete item may have, and for what one read adds.
const ROOM: usize = 1093;

/// The bytes that were read from a source and not consumed yet. They may hold a password, so consumed bytes are
/// overwritten before more is read, and all bytes when the reader is dropped.
pub struct Reader {
    held: Vec<u8>,
    // The number of leading bytes that were consumed. They stay there until more is read.
    handed: usize,
    // The buffer of a read. It is overwritten once its bytes are held.
    piece: [u8; CHUNK],
}

impl Drop for Reader {
    fn drop(self) {
        let Reader {
            held: mut bytes,
            handed: _,
            piece: _,
        } = self;
        wipe(&mut bytes);
    }
}

impl Model for Reader {
    ghost use Rattle.std.specs.Prelude.{List, ℕ, ◌≤◌, drop, length, vec_capacity};

    ghost Value = { List ℕ };

    ghost view = { λ r. drop r.handed r.held.items };

    ghost invariant = { λ r. (1093 ≤ vec_capacity r.held) × (r.handed ≤ length r.held.items) };
}

/// What the bytes held begin with.
#[derive(Clone, Copy)]
pub enum NextItem {
    /// An item: the number of its bytes, and the number of bytes before the next one.
    Item { length: usize, size: usize },
    /// The last item: all bytes held.
    Rest,
    /// No item, and the source has ended.
    End,
}

impl Reader {
    /// Allocates all the memory that the reader needs.
    pub fn new(alloc: Global) -> Result<Reader, NoMemory>
        ensures { IfOk result (λ r. r ≡ []) }
    {
        Ok(Reader {
            held: Vec::with_capacity(alloc, ROOM)?,
            handed: 0,
            piece: [0; CHUNK],
        })
    }

    pub fn bytes(&self) -> &[u8]
        ensures { result.now ≡ self.now }
    {
        &self.held[self.handed..]
    }

    /// Consumes the first n bytes.
    pub fn skip(&mut self, n: usize)
        requires { n ≤ length self.old }
        ensures { self.new ≡ drop n self.old }
    {
        self.handed += n;
    }

    /// Reads bytes until an item is complete, or until the bytes held are refused whatever follows.
    pub fn find<R: Stepping, S: Source>(
        &mut self,
        source: &mut S,
        before: u32,
    ) -> Result<NextItem, Failed>
        ensures found { IsFound R.looked result before self.new }
        ensures tells { S.source_tells source.new ≡ S.source_tells source.old }
        ensures told { IsTrue (S.source_tells source.old) →
            Finds R.looked R.refuses result before self.old self.new
            (S.source_holds source.old) (S.source_holds source.new) }
        ensures faults { RisesIf (is_err result) (S.source_faults source.old)
            (S.source_faults source.new) }
    {
        R::cuts();
        loop {
            match R::first_item(before, self.bytes()) {
                FirstItem::Item { length, size } => return Ok(NextItem::Item { length, size }),
                FirstItem::Last => return Ok(NextItem::Rest),
                FirstItem::Wait => {}
            }
            if self.fill(source)? == 0 {
                return Ok(self.last());
            }
        }
    }

    // What is found if the source has ended.
    fn last(&self) -> NextItem
        ensures { result ≡ (if length self.now == 0 then NextItem.End else NextItem.Rest) }
    {
        if self.bytes().is_empty() {
            NextItem::End
        } else {
            NextItem::Rest
        }
    }

    // Reads bytes from the source.
    fn fill<S: Source>(&mut self, source: &mut S) -> Result<usize, Failed>
        requires { length self.old ≤ 581 }
        ensures more { IfOk result (λ n. Adds n self.old self.new) }
        ensures err { OnErr result (self.new ≡ self.old) }
        ensures tells { S.source_tells source.new ≡ S.source_tells source.old }
        ensures told { IsTrue (S.source_tells source.old) →
            Fills result self.old self.new (S.source_holds source.old) (S.source_holds source.new) }
        ensures faults { RisesIf (is_err result) (S.source_faults source.old)
            (S.source_faults source.new) }
    {
        wipe_first(&mut self.held, self.handed);
        self.handed = 0;
        let n = source.read(&mut self.piece)?;
        self.held.extend_from_slice(&self.piece[..n]).unwrap();
        wipe(&mut self.piece);
        Ok(n)
    }
}

// Removes the first n bytes. No copy of them is left in the memory after the others, either.
fn wipe_first(held: &mut Vec<u8>, n: usize)
    requires { n ≤ length held.old.items }
    ensures items { held.new.items ≡ drop n held.old.items }
    ensures room { vec_capacity held.old ≤ vec_capacity held.new }
{
    let all = held.len();
    held.rotate_left(n);
    held.truncate(all - n);
    held.resize(all, 0).unwrap();
    held.truncate(all - n);
}
