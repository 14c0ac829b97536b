ghost use Rattle.std.specs.Prelude.{◌≡◌, ◌≢◌, ◌+◌, ◌≤◌, ◌<◌, ℕ, Some, None, IfOk, OnOk, length};
ghost use Rattle.std.specs.Option.{option_or};
ghost use Rattle.handler_chain.specs.Pass.{kept_in};
ghost use Rattle.pass_replay.specs.Kept.{answers_in, visits_of};

use crate::visited::Visited;
use pam_base::{Code, NoMemory};
use std::alloc::Global;
use std::marker::Model;

/// The cached return codes of lines. Contracts see a cell for each line from 0 on: None, or the
/// code that is cached for it. After the last cell nothing is cached.
#[derive(Debug, Drop)]
pub struct Answers {
    cells: Vec<Option<Code>>,
}

impl Model for Answers {
    ghost use Rattle.std.specs.Prelude.{List, Option};
    ghost use Rattle.pam_base.specs.declared.code.Code.{Code};

    ghost Value = { List (Option Code) };

    ghost view = { λ a. a.cells.items };
}

impl Answers {
    /// The codes of the lines that a pass ran; if one was run several times, the first code.
    pub fn of(alloc: Global, visits: &[Visited]) -> Result<Self, NoMemory>
        ensures { IfOk result (λ kept. answers_in kept ≡ kept_in (visits_of visits.now)) }
    {
        let mut cells = Vec::new(alloc);
        for visit in visits {
            keep_first(&mut cells, visit.place, visit.answer)?;
        }
        Ok(Answers { cells })
    }

    /// The code that is cached for a line.
    pub fn at(&self, place: usize) -> Option<Code>
        ensures { result ≡ answers_in self.now place }
    {
        self.cells.get(place).copied().flatten()
    }
}

// Caches a code for a line that has none yet.
fn keep_first(cells: &mut Vec<Option<Code>>, place: usize, answer: Code) -> Result<(), NoMemory>
    ensures kept { OnOk result (answers_in cells.new.items place
        ≡ option_or (answers_in cells.old.items place) (Some answer)) }
    ensures others { OnOk result ((other : ℕ) → other ≢ place →
        answers_in cells.new.items other ≡ answers_in cells.old.items other) }
{
    make_room(cells, place)?;
    if cells[place].is_none() {
        cells[place] = Some(answer);
    }
    Ok(())
}

// Adds empty cells, so that this line has one.
fn make_room(cells: &mut Vec<Option<Code>>, place: usize) -> Result<(), NoMemory>
    ensures within { OnOk result (place < length cells.new.items) }
    ensures same { OnOk result ((other : ℕ) →
        answers_in cells.new.items other ≡ answers_in cells.old.items other) }
{
    while cells.len() <= place {
        cells.push(None)?;
    }
    Ok(())
}
