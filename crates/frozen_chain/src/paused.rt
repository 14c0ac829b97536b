ghost use Rattle.std.specs.Prelude.{◌≡◌, None, Some};
ghost use Rattle.frozen_chain.specs.Paused.{past_of};

use crate::cached::Cached;
use pam_base::Code;
use std::alloc::Global;

/// The return codes in an incomplete pass, over all its calls so far; none if no pass is
/// incomplete.
pub type Paused = Cached<Code>;

impl Cached<Code> {
    /// The codes of a pass that is to be resumed.
    pub fn of(answers: Vec<Code>) -> Self
        ensures { result ≡ Some answers.items }
    {
        Cached {
            codes: Some(answers),
        }
    }

    /// Takes the codes to resume with; after it no pass is incomplete. It does not allocate.
    pub fn take(&mut self, alloc: Global) -> Vec<Code>
        ensures answers { result.items ≡ past_of self.old }
        ensures none { self.new ≡ None }
    {
        match self.codes.take() {
            Some(answers) => answers,
            None => Vec::new(alloc),
        }
    }
}
