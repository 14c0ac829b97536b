ghost use Rattle.std.specs.Prelude.{◌≡◌, ◌<◌, ◌≤◌, ◌+◌, ◌∷◌, ◌++◌, [], None, Some, IfOk, IfSome, IfNone};
ghost use Rattle.dispatch_core.specs.AnswersSoFar.{past_of};

use frozen_chain::Paused;
use pam_base::{Code, NoMemory};
use std::alloc::Global;
use std::marker::Model;

/// The return codes that a pass was given: those of its earlier calls, which come first again, and
/// those of this one.
#[derive(Drop)]
pub struct AnswersSoFar {
    answers: Vec<Code>,
    used: usize,
}

impl Model for AnswersSoFar {
    ghost use Rattle.std.specs.Prelude.{◌-◌, ◌≤◌, drop, length, take, vec_capacity, vec_len};
    ghost use Rattle.dispatch_core.specs.AnswersSoFar.{AnswersView};

    ghost Value = { AnswersView };

    ghost view = { λ g. record {
      taken = take g.used g.answers.items;
      past = drop g.used g.answers.items;
      room = vec_capacity g.answers - vec_len g.answers;
    } };

    ghost invariant = { λ g. g.used ≤ length g.answers.items };
}

impl AnswersSoFar {
    /// Resumes an incomplete pass, or begins a new one, with room for the codes of n lines. After
    /// it no pass is incomplete, even if an allocation fails.
    pub fn resume(alloc: Global, paused: &mut Paused, lines: usize) -> Result<Self, NoMemory>
        ensures past { IfOk result (λ codes. codes.past ≡ past_of paused.old) }
        ensures taken { IfOk result (λ codes. codes.taken ≡ []) }
        ensures room { IfOk result (λ codes. lines ≤ codes.room) }
        ensures none { paused.new ≡ None }
    {
        let mut answers = paused.take(alloc);
        answers.reserve(lines)?;
        Ok(AnswersSoFar { answers, used: 0 })
    }

    /// Takes the next code of an earlier call, if one is left.
    pub fn next(&mut self) -> Option<Code>
        ensures first { IfSome result (λ answer. self.old.past ≡ answer ∷ self.new.past) }
        ensures taken { IfSome result (λ answer. self.new.taken ≡ self.old.taken ++ answer ∷ []) }
        ensures room { self.new.room ≡ self.old.room }
        ensures none { IfNone result (self.old.past ≡ []) }
        ensures same { IfNone result (self.new ≡ self.old) }
    {
        let answer = *self.answers.get(self.used)?;
        self.used += 1;
        Some(answer)
    }

    /// Adds the code of a line that was run. It does not allocate.
    pub fn add(&mut self, answer: Code)
        requires past { self.old.past ≡ [] }
        requires room { 0 < self.old.room }
        ensures past { self.new.past ≡ [] }
        ensures taken { self.new.taken ≡ self.old.taken ++ answer ∷ [] }
        ensures room { self.old.room ≤ self.new.room + 1 }
    {
        self.answers.push(answer).unwrap();
        self.used += 1;
    }

    /// The codes to resume with, if the pass is incomplete.
    pub fn pause(self) -> Paused
        requires { self.past ≡ [] }
        ensures { result ≡ Some self.taken }
    {
        Paused::of(self.answers)
    }
}
