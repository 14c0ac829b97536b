ghost use Rattle.std.specs.Prelude.{◌≡◌, ◌<◌, ◌+◌, ◌∷◌, ◌++◌, [], IfOk, OnOk, is_none, true};
ghost use Rattle.dispatch_core.specs.Passes.{answer_in};
ghost use Rattle.handler_chain.specs.declared.pass_kind.PassKind.{PassKind};
ghost use Rattle.handler_chain.specs.Pass.{AnswersAs, decides, is_incomplete, serving};
ghost use Rattle.handler_chain.specs.Retell.{replaying};
ghost use Rattle.handler_chain.specs.Route.{KeptAnswers};
ghost use Rattle.handler_chain.specs.Walk.{ServedAs};
ghost use Rattle.pass_replay.specs.Told.{telling_from};
ghost use Rattle.pass_replay.specs.Walk.{state_in};

use crate::told::{is_of, next_seen};
use crate::visited::Visited;
use control_words::Rule;
use handler_chain::RecordedLine;
use pam_base::{Code, NoMemory, Sequence};
use std::alloc::Global;

/// How far the replay of a pass has got.
#[derive(Debug, Drop)]
pub struct Replay {
    /// How many lines of the stack it has passed.
    pub at: usize,
    /// How many of the codes of its earlier calls are used.
    pub used: usize,
    /// The recorded lines before this one were taken.
    pub next: usize,
    /// Whether a line was run that isn't the next recorded one.
    pub astray: bool,
    pub visits: Sequence<Visited>,
}

/// A pass that begins at a recorded line.
pub fn begun(alloc: Global, next: usize, astray: bool) -> Replay
    ensures { result ≡ record { at = 0; used = 0; next = next; astray = astray; visits = [] } }
{
    Replay {
        at: 0,
        used: 0,
        next,
        astray,
        visits: Sequence::new(alloc),
    }
}

/// The code of a line: the next one of the pass's earlier calls, else what is recorded for it; None
/// if the pass is incomplete here.
pub fn next_answer(
    rule: &Rule,
    past: &[Code],
    told: &[Option<RecordedLine>],
    replay: &mut Replay,
) -> Result<Option<Code>, NoMemory>
    requires few { replay.old.at < 4096 }
    ensures served { IfOk result (λ answer. (kind : PassKind) (kept : KeptAnswers) → ServedAs
        (serving kind kept replaying rule.now (replay.old.at + 1)
        (state_in past.now told.now replay.old))
        (answer_in answer) (decides kind kept (replay.old.at + 1) (answer_in answer))
        (is_none answer) (state_in past.now told.now replay.new)) }
    ensures at { replay.new.at ≡ replay.old.at }
{
    if let Some(answer) = past.get(replay.used) {
        let answer = *answer;
        replay.used += 1;
        visit(answer, replay)?;
        return Ok(Some(answer));
    }
    let answer = ask(rule, told, replay);
    if puts_off(answer) {
        return Ok(None);
    }
    visit(answer, replay)?;
    Ok(Some(answer))
}

fn puts_off(answer: Code) -> bool
    ensures { result ≡ is_incomplete answer }
{
    answer == Code::Incomplete
}

// Adds the present line to those that were run.
fn visit(answer: Code, replay: &mut Replay) -> Result<(), NoMemory>
    requires few { replay.old.at < 4096 }
    ensures added { OnOk result (replay.new ≡ record replay.old {
      visits = replay.old.visits
          ++ record { place = replay.old.at + 1; answer = answer } ∷ [];
    }) }
    ensures at { replay.new.at ≡ replay.old.at }
{
    replay.visits.push(Visited {
        place: replay.at + 1,
        answer,
    })
}

// The present line returns the next recorded code, if that belongs to this line; else the replay
// stops.
fn ask(rule: &Rule, told: &[Option<RecordedLine>], replay: &mut Replay) -> Code
    requires few { replay.old.at < 4096 }
    ensures answers { AnswersAs (replaying rule.now (replay.old.at + 1)
        (telling_from told.now replay.old.next replay.old.astray))
        result (telling_from told.now replay.new.next replay.new.astray) }
    ensures same { replay.new ≡ record replay.old {
      next = replay.new.next;
      astray = replay.new.astray;
    } }
{
    let Some((found, seen)) = next_seen(told, replay.next) else {
        return stray(replay);
    };
    if !is_of(seen, rule, replay.at + 1) {
        return stray(replay);
    }
    replay.next = found + 1;
    replay.astray = false;
    seen.answer
}

fn stray(replay: &mut Replay) -> Code
    ensures answer { result ≡ Code.Incomplete }
    ensures astray { replay.new ≡ record replay.old { astray = true } }
{
    replay.astray = true;
    Code::Incomplete
}
