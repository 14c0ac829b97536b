ghost use Rattle.std.specs.Prelude.{◌≡◌, ◌<◌, ◌+◌, ℕ, length, IfOk};
ghost use Rattle.control_words.specs.Stack.{Stack};
ghost use Rattle.dispatch_core.specs.Paths.{HasPaths, path_in};

use handler_chain::Chain;
use pam_base::{NoMemory, SharedText};
use std::alloc::Global;
use std::marker::Model;
use std::mem;

/// Shares of the paths of a chain's lines, by their indices, so that running a line does not
/// allocate for its path.
#[derive(Drop)]
pub struct Paths {
    texts: Vec<SharedText>,
}

impl Model for Paths {
    ghost use Rattle.std.specs.Prelude.{ℕ, List};

    ghost Value = { List (List ℕ) };

    ghost view = { λ p. p.texts.items };
}

impl Paths {
    pub fn of(alloc: Global, chain: &Chain) -> Result<Self, NoMemory>
        ensures { IfOk result (λ paths. HasPaths chain.now.nodes 0 paths) }
    {
        let mut texts = Vec::new(alloc);
        for i in 0..chain.len() {
            texts.push(chain.path(i).share()?)?;
        }
        Ok(Paths { texts })
    }

    /// Takes the path of line i, and leaves an empty one in its place. It does not allocate.
    pub fn take(&mut self, i: usize) -> SharedText
        requires { i < length self.old }
        ensures path { result ≡ path_in self.old i }
        ensures others { (stack : Stack) → HasPaths stack i self.old →
            HasPaths stack (i + 1) self.new }
    {
        mem::replace(&mut self.texts[i], SharedText::new())
    }
}
