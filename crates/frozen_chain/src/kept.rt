ghost use Rattle.std.specs.Prelude.{◌≡◌, ◌≢◌, ◌<◌, ℕ, None, Some, OnOk, OnErr};
ghost use Rattle.frozen_chain.specs.Kept.{answer_at, empty_cells, kept_at, lines_kept};

use crate::cached::Cached;
use pam_base::{Code, NoMemory};
use std::alloc::Global;

/// Return codes cached for the lines of a stack (libpam's `cached_retval`), by their indices from
/// 0. Contracts see None if none are held, otherwise a cell for each line: None, or the code that
/// is cached for it.
pub type Kept = Cached<Option<Code>>;

impl Cached<Option<Code>> {
    /// Makes room for the codes of n lines, none of which is cached yet. Earlier ones are
    /// forgotten; if an allocation fails, nothing is held.
    pub fn open(&mut self, alloc: Global, lines: usize) -> Result<(), NoMemory>
        ensures ok { OnOk result (self.new ≡ Some (empty_cells lines)) }
        ensures lines { OnOk result (lines_kept self.new ≡ lines) }
        ensures empty { OnOk result ((i : ℕ) → answer_at self.new i ≡ None) }
        ensures err { OnErr result (self.new ≡ None) }
    {
        self.drop_all();
        self.codes = Some(vec![in alloc; None; lines]?);
        Ok(())
    }

    /// Caches the code of line i, in place of an earlier one. It does not allocate.
    pub fn keep(&mut self, i: usize, answer: Code)
        requires { i < lines_kept self.old }
        ensures new { self.new ≡ kept_at self.old i answer }
        ensures lines { lines_kept self.new ≡ lines_kept self.old }
        ensures kept { answer_at self.new i ≡ Some answer }
        ensures others { (j : ℕ) → j ≢ i → answer_at self.new j ≡ answer_at self.old j }
    {
        if let Some(cells) = &mut self.codes {
            cells[i] = Some(answer);
        }
    }

    /// The code that is cached for line i; None if there is none, or if nothing is held.
    pub fn at(&self, i: usize) -> Option<Code>
        ensures { result ≡ answer_at self.now i }
    {
        match &self.codes {
            Some(cells) => cells.get(i).copied().flatten(),
            None => None,
        }
    }

    /// Forgets all codes: nothing is held.
    pub fn drop_all(&mut self)
        ensures { self.new ≡ None }
    {
        self.codes = None;
    }
}
