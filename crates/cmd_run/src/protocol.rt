ghost use Rattle.std.specs.Prelude.{◌≡◌, ◌≤◌, ◌<◌, ℕ, Bool, List, Option, Result, IfOk, IsTrue, OnErr, is_some, string_bytes};
ghost use Rattle.record_reader.specs.declared.ending.Ending.{Ending as PlainEnding};
ghost use Rattle.record_reader.specs.Cutting.{Cuts, Keeps};
ghost use Rattle.record_reader.specs.FirstItem.{IsFirstItem};
ghost use Rattle.script_lang.specs.declared.line.Line.{Line as PlainLine};
ghost use Rattle.script_lang.specs.Fit.{IsFit};
ghost use Rattle.cmd_run.specs.Read.{ReadsAs};
ghost use Rattle.cmd_run.specs.Run.{CompletesSo, EndsSo, ReadsSo, RunComplete, RunEnd, RunRead, RunTold, RunsSo};
ghost use Rattle.cmd_run.specs.Serve.{Does};
ghost use Rattle.cmd_run.specs.State.{RunState, Setting};

use pam_base::{NoMemory, Refuse, Text};
use record_reader::{Ending, FirstItem, Stepping};
use script_lang::Line;
use std::alloc::Global;
use std::marker::PhantomData;

/// How the calls of a run are read from a stream of bytes, and their reports written. A call is read as a line of a
/// script.
pub trait Protocol {
    /// Why an item of the stream is refused.
    type Kind: Copy + Drop;

    /// The items cut from bytes that follow n items; the flag says whether the input ends after them.
    ghost looked: { ℕ → List ℕ → Bool → List (List ℕ) };

    /// The items after n others that are refused in every state.
    ghost refuses: { ℕ → List ℕ → Type 0 };

    /// What an item asks for that follows n others, or why it is refused.
    ghost asked: { ℕ → List ℕ → Result PlainLine Self.Kind };

    /// The bytes that are written for a report.
    ghost wrapped: { List ℕ → List ℕ };

    /// The state after an item that follows n others, and the bytes that are written for it; or why it is refused.
    ghost step: { Setting → ℕ → RunState → List ℕ → Result (RunState × List ℕ) Self.Kind };

    /// The states that an item after n others may leave if its call runs out of memory.
    ghost fails: { Setting → ℕ → RunState → List ℕ → RunState → Type 0 };

    /// Whether an item is refused, without its effect.
    ghost read_step: { ℕ → Unit {0} → List ℕ → Result (Unit {0} × List ℕ) Self.Kind };

    /// What is written after so many items, when what was open is ended.
    ghost last_text: { PlainEnding Self.Kind → ℕ → Option (List ℕ) };

    /// What a whole run is, if all objects are modelled.
    ghost runs: { RunTold Self.Kind };

    /// How the bytes that were read end a run, if only the source is modelled.
    ghost reads: { RunRead Self.Kind };

    /// That a run doesn't stop without a cause, if only the source is modelled.
    ghost completes: { RunComplete Self.Kind };

    /// The ends of transactions that a run makes, by the bytes of its source if that is modelled.
    ghost is_end: { RunEnd };

    /// What bytes begin with after `before` items. It waits for at most 581 bytes.
    fn first_item(before: u32, held: &[u8]) -> FirstItem
        ensures { IsFirstItem looked refuses result before held.now };

    /// A law: bytes that wait for more are an item if the input ends there.
    fn cuts()
        ensures { Cuts looked };

    /// A law: which items are cut, and which are refused, depends on the bytes alone, not on how reads divided them.
    fn keeps()
        ensures steps { (setting : Setting) → Keeps looked refuses (step setting) }
        ensures reads { Keeps looked refuses read_step };

    /// A law: an item does what it asks for.
    fn does()
        ensures { Does asked wrapped step fails read_step };

    /// A law: what holds for a whole run.
    fn ends()
        ensures told { RunsSo looked asked wrapped last_text step fails runs }
        ensures read { ReadsSo looked read_step reads }
        ensures complete { CompletesSo looked read_step completes }
        ensures ends { EndsSo looked asked is_end };

    /// What an item asks for that follows `taken` others. At most 65,535 come before one that isn't refused.
    fn read(alloc: Global, taken: u32, item: &[u8]) -> Result<Line, Refuse<Self::Kind>>
        ensures asks { ReadsAs result (asked taken item.now) }
        ensures fit { IfOk result IsFit }
        ensures few { IfOk result (λ line. taken < 65536) };

    /// The bytes that are written for a report.
    fn wrap(alloc: Global, report: String) -> Result<Text, NoMemory>
        ensures { IfOk result (λ bytes. bytes ≡ wrapped (string_bytes report)) };

    /// What is written after so many items, when what was open is ended.
    fn last_report(
        alloc: Global,
        ending: Ending<Self::Kind>,
        taken: u32,
    ) -> Result<Option<Text>, NoMemory>
        requires { taken ≤ 65536 }
        ensures ok { IfOk result (λ text. text ≡ last_text ending taken) }
        ensures err { OnErr result (IsTrue (is_some (last_text ending taken))) };
}

/// The stream of the items of a protocol.
pub(crate) struct Items<P: Protocol> {
    of: PhantomData<P>,
}

impl<P: Protocol> Stepping for Items<P> {
    ghost use Rattle.cmd_run.specs.State.{RunState, Setting as RunSetting};

    type Kind = P::Kind;

    ghost Setting = { RunSetting };

    ghost State = { RunState };

    ghost looked = { P.looked };

    ghost step = { P.step };

    ghost refuses = { P.refuses };

    ghost fails = { P.fails };

    fn first_item(before: u32, held: &[u8]) -> FirstItem {
        P::first_item(before, held)
    }

    fn cuts() {
        P::cuts();
    }

    fn keeps() {
        P::keeps();
    }
}

/// The same stream, of which only the source is modelled.
pub(crate) struct Reading<P: Protocol> {
    of: PhantomData<P>,
}

impl<P: Protocol> Stepping for Reading<P> {
    ghost use Rattle.cmd_run.specs.Reading.{AnyState};

    type Kind = P::Kind;

    ghost Setting = { Unit {0} };

    ghost State = { Unit {0} };

    ghost looked = { P.looked };

    ghost step = { λ _. P.read_step };

    ghost refuses = { P.refuses };

    ghost fails = { λ _. AnyState };

    fn first_item(before: u32, held: &[u8]) -> FirstItem {
        P::first_item(before, held)
    }

    fn cuts() {
        P::cuts();
    }

    fn keeps() {
        P::keeps();
    }
}
