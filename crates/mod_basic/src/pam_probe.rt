ghost use Rattle.std.specs.Prelude.{◌≡◌, ◌≤◌, ◌++◌, false, List, [], IsTrue, OnOk, OnErr, codes};
ghost use Rattle.conv_port.specs.declared.message.Message.{Message};
ghost use Rattle.data_cleanup.specs.Sets.{Sets};
ghost use Rattle.pam_room.specs.State.{room_of};
ghost use Rattle.pam_room.specs.Module.{HasSet, keeps_files, seen_of};
ghost use Rattle.pam_room.specs.Plain.{plain_transaction};
ghost use Rattle.mod_basic.specs.Request.{plain_request};
ghost use Rattle.mod_basic.specs.Probe.{Probes, ProbesAll, births_in, code_in, fixed_answer, probe_note, probe_plays, probed_all, probing};

use crate::request::{Request, request_in};
use conv_port::Conv;
use data_cleanup::{Datum, Ledger, Receipt};
use pam_base::{Code, ConvErr, MAX_TEXT, NoMemory, Refuse, Text, Texts, code_named};
use pam_outside::{Clock, Vault};
use pam_room::{Call, Module, Process, Transaction, first_bytes, laws, send, value_in};
use std::alloc::Global;

/// pam_probe, this project's own, for trying out a stack. It does what its arguments say, in order:
/// `set=NAME:PAYLOAD` sets module data, `say=TEXT` shows a text, `ask=TEXT` asks and drops the
/// reply, `delay=MICROSECONDS` requests a delay; if a message gets no reply it returns CONV_ERR at
/// once. Otherwise it returns the code of the last `answer=WORD` whose word is a code's, or
/// SUCCESS. Its cleanup returns 256 times the payload's length, plus the status modulo 256, modulo
/// 2^32.
#[derive(Drop)]
pub struct Probe;

impl Probe {
    /// Creates the module, which has no state.
    pub fn new() -> Self {
        Probe
    }
}

impl Module for Probe {
    ghost label = { λ _. codes "pam_probe" };

    ghost plays = { λ _. probe_plays };

    ghost note = { λ _. probe_note };

    ghost breaks = { λ _. keeps_files };

    fn name(&self) -> &[u8] {
        b"pam_probe"
    }

    fn serve(
        &self,
        alloc: Global,
        call: &Call,
        transaction: &mut Transaction,
        process: &mut Process,
        conv: &mut dyn Conv,
        _vault: &mut dyn Vault,
        _moment: u64,
        _clock: &mut dyn Clock,
    ) -> Result<Code, NoMemory> {
        laws::set_data_are_sets();
        laws::parts_are_played();
        laws::files_stay();
        match do_all(alloc, call.args, transaction, &mut process.ledger, conv) {
            Ok(()) => Ok(fixed_answer(call.args)),
            Err(Refuse::NoMemory) => Err(NoMemory),
            Err(Refuse::Named(ConvErr)) => Ok(Code::ConvErr),
        }
    }

    fn tidy(&self, datum: Datum, status: u32) -> Receipt {
        let note = note_of(datum.payload(), status);
        datum.spend(status, note)
    }
}

// Does what the arguments say, up to a message that gets no reply.
fn do_all(
    alloc: Global,
    args: &Texts,
    transaction: &mut Transaction,
    ledger: &mut Ledger,
    conv: &mut dyn Conv,
) -> Result<(), Refuse<ConvErr>>
    ensures tells { conv_tells conv.new ≡ conv_tells conv.old }
    ensures told { IsTrue (conv_tells conv.old) →
        ProbesAll result (probed_all args.now (probing false (seen_of (room_of
        (plain_transaction transaction.old) (conv_holds conv.old))) []))
        (seen_of (room_of (plain_transaction transaction.new) (conv_holds conv.new)))
        transaction.old.serving transaction.old.datums ledger.old
        transaction.new.datums ledger.new }
    ensures sets { Sets transaction.old.serving transaction.old.datums ledger.old
        transaction.new.datums ledger.new }
    ensures data_handle { transaction.new.datums.handle ≡ transaction.old.datums.handle }
    ensures delay { transaction.old.delay ≤ transaction.new.delay }
    ensures said { (more : List Message) × (transaction.new.said ≡ transaction.old.said ++ more) }
    ensures others { transaction.new ≡ record transaction.old {
      datums = transaction.new.datums;
      delay = transaction.new.delay;
      said = transaction.new.said;
      put_off = transaction.new.put_off;
    } }
{
    laws::nothing_is_set();
    laws::setting_goes_on();
    laws::set_data_are_sets();
    let mut rest = args.items();
    while let [arg, after @ ..] = rest {
        let request = request_in(arg.bytes());
        do_request(alloc, request, transaction, ledger, conv)?;
        rest = after;
    }
    Ok(())
}

// Does what one argument says.
fn do_request(
    alloc: Global,
    request: Request,
    transaction: &mut Transaction,
    ledger: &mut Ledger,
    conv: &mut dyn Conv,
) -> Result<(), Refuse<ConvErr>>
    ensures tells { conv_tells conv.new ≡ conv_tells conv.old }
    ensures told { IsTrue (conv_tells conv.old) →
        Probes result (plain_request request.entry) (seen_of (room_of
        (plain_transaction transaction.old) (conv_holds conv.old)))
        (seen_of (room_of (plain_transaction transaction.new) (conv_holds conv.new))) }
    ensures sets { OnOk result (HasSet transaction.old.serving (births_in
        (plain_request request.entry)) transaction.old.datums ledger.old transaction.new.datums
        ledger.new) }
    ensures none_set { OnErr result ((transaction.new.datums ≡ transaction.old.datums) × (ledger.new
        ≡ ledger.old)) }
    ensures delay { transaction.old.delay ≤ transaction.new.delay }
    ensures said { (more : List Message) × (transaction.new.said ≡ transaction.old.said ++ more) }
    ensures others { transaction.new ≡ record transaction.old {
      datums = transaction.new.datums;
      delay = transaction.new.delay;
      said = transaction.new.said;
      put_off = transaction.new.put_off;
    } }
{
    laws::nothing_is_set();
    match request {
        Request::SetData { name, payload } => {
            transaction.set_data(alloc, ledger, name, payload)?;
        }
        Request::Send { style, text } => {
            let text = Text::from_bytes(alloc, first_bytes(text, MAX_TEXT))?;
            let _reply = send(alloc, transaction, conv, style, text)?;
        }
        Request::Delay { micros } => transaction.delay.request(micros),
        Request::Nothing => {}
    }
    Ok(())
}

// The code of the last `answer=` that names one.
fn fixed_answer(args: &Texts) -> Code
    ensures { result ≡ fixed_answer args.now }
{
    let mut found = None;
    let mut rest = args.items();
    while let [arg, after @ ..] = rest {
        if let Some(code) = code_in(arg.bytes()) {
            found = Some(code);
        }
        rest = after;
    }
    found.unwrap_or(Code::Success)
}

fn code_in(arg: &[u8]) -> Option<Code>
    ensures { result ≡ code_in arg.now }
{
    match value_in(b"answer=", arg) {
        Some(word) => code_named(word),
        None => None,
    }
}

fn note_of(payload: &[u8], status: u32) -> u32
    ensures { result ≡ probe_note payload.now status }
{
    (payload.len() % 0x100_0000) as u32 * 256 + status % 256
}
