ghost use Rattle.std.specs.Prelude.{◌≡◌, ◌<◌, ◌≤◌, ◌+◌, ◌==◌, ◌∷◌, ◌++◌, [], length, slice_get, Some, IsOk, OnOk, OnErr};

use pam_base::{Code, NoMemory, SharedText};
use std::alloc::Global;
use std::marker::Model;

/// A line that was run: its number among the stack's lines, from 1, its module's path, and its
/// return code.
#[derive(Debug, Drop)]
pub struct Visit {
    pub place: u32,
    pub path: SharedText,
    pub answer: Code,
}

/// The lines that were run, in order. Contracts see these, and the spare room: how many more lines
/// can be added without an allocation.
#[derive(Debug, Drop)]
pub struct Visits {
    vec: Vec<Visit>,
}

impl Model for Visits {
    ghost use Rattle.std.specs.Prelude.{◌-◌, vec_len, vec_capacity};
    ghost use Rattle.pam_room.specs.Trail.{Trail};

    ghost Value = { Trail };

    ghost view = { λ v.
        record { visits = v.vec.items; spare = vec_capacity v.vec - vec_len v.vec } };
}

impl Visits {
    /// No line was run. It does not allocate.
    pub fn new(alloc: Global) -> Self
        ensures { result.visits ≡ [] }
    {
        Visits {
            vec: Vec::new(alloc),
        }
    }

    /// Adds a line at the end. With spare room it does not allocate, and succeeds. If an allocation
    /// fails, the list is as it was.
    pub fn push(&mut self, visit: Visit) -> Result<(), NoMemory>
        ensures ok { OnOk result (self.new.visits ≡ self.old.visits ++ visit ∷ []) }
        ensures err { OnErr result (self.new.visits ≡ self.old.visits) }
        ensures fits { 0 < self.old.spare → IsOk result }
        ensures spare { self.old.spare ≤ self.new.spare + 1 }
    {
        self.vec.push(visit)?;
        Ok(())
    }

    /// Makes room for n more lines. The list stays as it was.
    pub fn reserve(&mut self, n: usize) -> Result<(), NoMemory>
        ensures visits { self.new.visits ≡ self.old.visits }
        ensures ok { OnOk result (n ≤ self.new.spare) }
        ensures spare { self.old.spare ≤ self.new.spare }
    {
        self.vec.reserve(n)?;
        Ok(())
    }

    pub fn len(&self) -> usize
        ensures { result ≡ length self.now.visits }
    {
        self.items().len()
    }

    pub fn is_empty(&self) -> bool
        ensures { result ≡ (length self.now.visits == 0) }
    {
        self.items().is_empty()
    }

    /// The line at index i, from 0.
    pub fn at(&self, i: usize) -> &Visit
        requires { i < length self.now.visits }
        ensures { slice_get self.now.visits i ≡ Some result.now }
    {
        &self.vec[i]
    }

    pub fn items(&self) -> &[Visit]
        ensures { result.now ≡ self.now.visits }
    {
        &self.vec
    }
}
