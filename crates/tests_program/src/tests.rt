//! What the program prints, and what it leaves, if calls of the input, the output or the files are
//! set to fail, and if a module runs out of memory.

mod forgetful;

ghost use Rattle.std.specs.Prelude.{◌≡◌, []};

use crate::tests::forgetful::Forgetful;
use cmd_all::{Desk, pamsess};
use conv_port::{Conv, QueueConv};
use mod_basic::{Permit, Probe};
use pam_base::{Code, DATA_REPLACE as REPLACED, NoMemory, Numbers, Text};
use pam_outside::{FixedClock, MemSink, MemSource, MemVault, NapSum};
use pam_room::data_cleanup::Ledger;
use pam_room::{Module, Process, World};
use std::alloc::Global;
use std::test::Fail;

/// The user ID of the process: nobody.
const CALLER: u32 = 65534;

/// How many transactions may be open at a time, each with a conversation.
const TRANSACTIONS: usize = 16;

/// A run over the service file `/r/etc/pam.d/t`: the arguments, the script, the numbers of the
/// calls of `Source`, `Sink` and `Vault` that are set to fail, and the expected output and status.
#[derive(Clone, Copy)]
struct Row {
    words: &'static [&'static str],
    file: &'static [u8],
    script: &'static [u8],
    failing_reads: &'static [u64],
    failing_writes: &'static [u64],
    failing_calls: &'static [u64],
    output: &'static [u8],
    status: u8,
}

/// A login with one authentication, of which nothing fails.
const LOGIN: Row = Row {
    words: &["run", "/r"],
    file: b"auth required pam_permit.so\n",
    script: b"start 1 t joe\nauthenticate 1\nend 1 0\n",
    failing_reads: &[],
    failing_writes: &[],
    failing_calls: &[],
    output: b"1 start SUCCESS 0\n1 line 1 pam_permit SUCCESS 0\n1 authenticate SUCCESS 0\n1 end SUCCESS 0\n",
    status: 0,
};

/// A transaction with three data, of which two are replaced, whose end isn't reported.
const DATA: Row = Row {
    file: b"auth required pam_probe.so set=a:x set=a:yy set=a:zzz\n",
    script: b"start 1 t joe\nauthenticate 1\nend 1 0x40000007\n",
    failing_writes: &[3],
    output: b"1 start SUCCESS 0\n1 line 1 pam_probe SUCCESS 0\n1 clean 0 20000000 256 pam_probe a\n1 clean 1 20000000 512 pam_probe a\n1 authenticate SUCCESS 0\n",
    status: 6,
    ..LOGIN
};

/// What a login writes whose start is refused, since the file of `other` can't be read.
const NO_OTHER: &[u8] =
    b"1 start refused /etc/pam.d/other 0 ReadFailed 16\n1 authenticate not open\n1 end not open\n";

/// A front end's start of a transaction, and its answer.
const FRAMES: Row = Row {
    words: &["wire", "/r"],
    script: b"\x00\x05\x01\x01\x01t\x00",
    output: b"\x00\x00\x00\x00\x00\x00\x00\x121 start SUCCESS 0\n",
    status: 6,
    ..LOGIN
};

/// The service `gen` of 33 lines, made by seed 1. It has two files, `gen.1` with 32 lines and `gen.2` with one.
const GENERATE: Row = Row {
    words: &["generate", "1", "33"],
    script: b"",
    failing_calls: &[1],
    output: b"refused /etc/pam.d/gen.1 0 ReadFailed 16\n",
    status: 3,
    ..LOGIN
};

static ROWS: [Row; 28] = [
    // A call of `Vault`: for the directory, the file, `other` for the second type and for the last,
    // and one that isn't reached.
    Row {
        failing_calls: &[1],
        output: b"1 start refused /etc/pam.d 0 ReadFailed 16\n1 authenticate not open\n1 end not open\n",
        ..LOGIN
    },
    Row {
        failing_calls: &[2],
        output: b"1 start refused /etc/pam.d/t 0 ReadFailed 16\n1 authenticate not open\n1 end not open\n",
        ..LOGIN
    },
    Row {
        failing_calls: &[4],
        output: NO_OTHER,
        ..LOGIN
    },
    Row {
        failing_calls: &[8],
        output: NO_OTHER,
        ..LOGIN
    },
    Row {
        failing_calls: &[9],
        ..LOGIN
    },
    // The source: at once, in a line, and never.
    Row {
        failing_reads: &[1],
        output: b"read fault\n",
        status: 5,
        ..LOGIN
    },
    Row {
        script: b"start 1 t\nauth",
        failing_reads: &[2],
        output: b"1 start SUCCESS 0\n1 closed SYSTEM_ERR 4\nread fault\n",
        status: 5,
        ..LOGIN
    },
    Row {
        failing_reads: &[10000],
        failing_writes: &[10000],
        ..LOGIN
    },
    // A call of `Sink`: at each line of a script with data, after its last line, and while a
    // refused line or a read fault is reported.
    Row {
        failing_writes: &[1],
        output: b"",
        ..DATA
    },
    Row {
        failing_writes: &[2],
        output: b"1 start SUCCESS 0\n",
        ..DATA
    },
    DATA,
    Row {
        script: b"start 1 t\n",
        failing_writes: &[2],
        output: b"1 start SUCCESS 0\n",
        ..DATA
    },
    Row {
        script: b"start 1 t\nauthen\n",
        failing_writes: &[2],
        output: b"1 start SUCCESS 0\n",
        ..DATA
    },
    Row {
        failing_reads: &[1],
        failing_writes: &[1],
        output: b"",
        ..DATA
    },
    // Other commands.
    Row {
        words: &["check", "/r", "t"],
        failing_calls: &[1],
        output: b"refused /etc/pam.d 0 ReadFailed 16\n",
        status: 3,
        ..LOGIN
    },
    Row {
        words: &["check", "/r", "t"],
        failing_writes: &[1],
        output: b"",
        status: 6,
        ..LOGIN
    },
    Row {
        words: &["run"],
        failing_writes: &[1],
        output: b"",
        status: 6,
        ..LOGIN
    },
    Row {
        failing_writes: &[2],
        ..FRAMES
    },
    Row {
        failing_reads: &[2],
        output: b"\x00\x00\x00\x00\x00\x00\x00\x121 start SUCCESS 0\n\x00\x00\x00\x00\x00\x00\x00\x161 closed SYSTEM_ERR 4\n",
        status: 5,
        ..FRAMES
    },
    Row {
        words: &["login", "/r", "t", "joe"],
        failing_writes: &[2],
        output: b"1 start SUCCESS 0\n",
        status: 6,
        ..LOGIN
    },
    Row {
        words: &["audit", "/r", "t"],
        script: b"1 start SUCCESS 0\n",
        failing_reads: &[2],
        output: b"",
        status: 5,
        ..LOGIN
    },
    // Generated files are stored, each by one call, and then loaded: the directory, `gen`, and the
    // files that it includes.
    GENERATE,
    Row {
        failing_calls: &[2],
        output: b"refused /etc/pam.d/gen.2 0 ReadFailed 16\n",
        ..GENERATE
    },
    Row {
        failing_calls: &[3],
        output: b"refused /etc/pam.d/gen 0 ReadFailed 16\n",
        ..GENERATE
    },
    Row {
        failing_calls: &[4],
        output: b"refused /etc/pam.d 0 ReadFailed 16\n",
        ..GENERATE
    },
    Row {
        failing_calls: &[5],
        output: b"refused /etc/pam.d/gen 0 ReadFailed 16\n",
        ..GENERATE
    },
    Row {
        failing_calls: &[6],
        ..GENERATE
    },
    Row {
        failing_calls: &[7],
        output: b"refused /etc/pam.d/gen.2 0 ReadFailed 16\n",
        ..GENERATE
    },
];

/// Out of memory in a module that has set data, with data of another module before: the end of the transaction has
/// status 5, PAM_BUF_ERR.
const FORGOTTEN: Row = Row {
    file: b"auth required pam_probe.so set=a:w\nauth required forgetful.so\n",
    output: b"1 start SUCCESS 0\n",
    status: 4,
    ..LOGIN
};

/// The id, status and result of each of its cleanups: `a` of pam_probe and the first of the other module are replaced,
/// and the rest is cleaned up at the end, the last name first.
const FORGOTTEN_RECEIPTS: &[(u64, u32, u32)] = &[
    (0, REPLACED, 256),
    (1, REPLACED, 1),
    (3, 5, 1),
    (2, 5, 2),
];

/// The result of a run: the status, how many data were set, and the id, status and result of each cleanup.
#[derive(Drop)]
struct Left {
    status: u8,
    births: usize,
    receipts: Vec<(u64, u32, u32)>,
}

/// The same, with the output.
#[derive(Drop)]
struct Ran {
    left: Left,
    output: Vec<u8>,
}

fn numbers(alloc: Global, all: &[u64]) -> Result<Numbers, Fail> {
    Ok(Numbers::from_vec(Vec::from_slice(alloc, all)?))
}

fn words_of(alloc: Global, row: &Row) -> Result<Vec<String>, Fail> {
    let mut words = Vec::new(alloc);
    for word in row.words {
        words.push(word.to_string(alloc)?)?;
    }
    Ok(words)
}

// Runs the program on a test case. There are three functions, since each has to show what is
// dropped on each of its exits.
fn run_row(alloc: Global, row: &Row) -> Result<Ran, Fail> {
    let words = words_of(alloc, row)?;
    let text = Text::from_bytes(alloc, row.script)?;
    let mut script = MemSource::new(text, numbers(alloc, row.failing_reads)?);
    let mut out = MemSink::new(alloc, 1_048_576, numbers(alloc, row.failing_writes)?)?;
    let left = run_over(alloc, row, &words, &mut script, &mut out)?;
    Ok(Ran {
        left,
        output: out.bytes().to_vec(alloc)?,
    })
}

// Runs it in a world with the test case's file.
fn run_over(
    alloc: Global,
    row: &Row,
    words: &[String],
    script: &mut MemSource,
    out: &mut MemSink,
) -> Result<Left, Fail> {
    let mut vault = MemVault::new(alloc, numbers(alloc, row.failing_calls)?);
    vault.put(alloc, b"/r/etc/pam.d/t", row.file)?;
    let mut world = World {
        vault: Box::new(alloc, vault)?,
        clock: Box::new(alloc, FixedClock::new(7, 7))?,
        nap: Box::new(alloc, NapSum::new())?,
        process: Process::new(alloc, Text::new(alloc), CALLER),
    };
    let status = run_with(alloc, words, script, out, &mut world)?;
    Ok(Left {
        status,
        births: world.process.ledger.births().len(),
        receipts: receipts(alloc, &world.process.ledger)?,
    })
}

fn receipts(alloc: Global, ledger: &Ledger) -> Result<Vec<(u64, u32, u32)>, NoMemory> {
    let mut receipts = Vec::new(alloc);
    for filed in ledger.filed() {
        let receipt = filed.receipt;
        receipts.push((receipt.id, receipt.status, receipt.note))?;
    }
    Ok(receipts)
}

// Runs it with the modules of the test cases and sixteen conversations without replies.
fn run_with(
    alloc: Global,
    words: &[String],
    script: &mut MemSource,
    out: &mut MemSink,
    world: &mut World,
) -> Result<u8, Fail>
    requires no_births { world.old.process.ledger.births ≡ [] }
    requires no_receipts { world.old.process.ledger.filed ≡ [] }
{
    let mut convs: Vec<Box<dyn Conv>> = Vec::new(alloc);
    for _ in 0..TRANSACTIONS {
        convs.push(Box::new(alloc, QueueConv::new(alloc))?)?;
    }
    let mut mods: Vec<Box<dyn Module>> = Vec::new(alloc);
    mods.push(Box::new(alloc, Permit::new())?)?;
    mods.push(Box::new(alloc, Probe::new())?)?;
    mods.push(Box::new(alloc, Forgetful)?)?;
    let desk = Desk {
        mods,
        convs,
        term: Box::new(alloc, QueueConv::new(alloc))?,
        delay: Box::new(alloc, |_code: Code, asked: u32| -> u32 {
            asked.min(3_000_000)
        })?,
        time: None,
    };
    Ok(pamsess(alloc, words, script, out, world, desk))
}

#[test]
fn calls_that_are_to_fail_leave_a_report_or_its_prefix_and_no_data(
    rt: HostRuntime,
) -> Result<(), Fail> {
    for row in ROWS.iter() {
        let ran = run_row(rt.alloc(), row)?;
        assert_eq!(rt; ran.output.as_slice(), row.output);
        assert_eq!(rt; ran.left.status, row.status);
        assert_eq!(rt; ran.left.receipts.len(), ran.left.births);
    }
    Ok(())
}

#[test]
fn data_of_a_module_that_runs_out_of_memory_are_cleaned_up(rt: HostRuntime) -> Result<(), Fail> {
    let ran = run_row(rt.alloc(), &FORGOTTEN)?;
    assert_eq!(rt; ran.output.as_slice(), FORGOTTEN.output);
    assert_eq!(rt; ran.left.status, FORGOTTEN.status);
    assert_eq!(rt; ran.left.births, FORGOTTEN_RECEIPTS.len());
    assert_eq!(rt; ran.left.receipts.as_slice(), FORGOTTEN_RECEIPTS);
    Ok(())
}
