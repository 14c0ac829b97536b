use crate::tests::fakes::fakes;
use crate::tests::scene::{Scene, play};
use fail_delay::{DelayFn, DelayRule};
use pam_base::{Code, DATA_REPLACE as REPLACED, Func, NoMemory};
use pam_handle::Gear;
use std::test::Fail;

// A scene, what each call returns (None if an allocation failed), what the lines run return, how many cleanup records
// there are before the end, the id, status and result of all of them, and what the file /stamp holds.
struct Row {
    scene: Scene,
    answers: &'static [Option<Code>],
    visits: &'static [Code],
    swept: usize,
    receipts: &'static [(u64, u32, u32)],
    stamp: &'static [u8],
}

static ROWS: &[Row] = &[
    // the flags 0 of setcred are PAM_ESTABLISH_CRED
    Row {
        scene: Scene {
            file: b"auth required establisher.so\n",
            calls: &[(Func::SetCred, 0), (Func::SetCred, 4), (Func::SetCred, 2)],
            status: 9,
        },
        answers: &[
            Some(Code::Success),
            Some(Code::CredErr),
            Some(Code::Success),
        ],
        visits: &[Code::Success, Code::CredErr, Code::Success],
        swept: 0,
        receipts: &[],
        stamp: b"",
    },
    // what was set before memory ran out is cleaned up: at once if it is replaced, else at the end, the
    // last name first
    Row {
        scene: Scene {
            file: b"account required establisher.so\naccount required forgetful.so\n",
            calls: &[(Func::AcctMgmt, 0), (Func::AcctMgmt, 2)],
            status: 9,
        },
        answers: &[None, None],
        visits: &[Code::CredErr, Code::Success],
        swept: 4,
        receipts: &[
            (0, REPLACED, 1),
            (1, REPLACED, 2),
            (3, REPLACED, 1),
            (2, REPLACED, 1),
            (5, 9, 1),
            (4, 9, 2),
        ],
        stamp: b"ready",
    },
    // also if no other line was run
    Row {
        scene: Scene {
            file: b"auth required forgetful.so\n",
            calls: &[(Func::Authenticate, 0)],
            status: 5,
        },
        answers: &[None],
        visits: &[],
        swept: 1,
        receipts: &[(0, REPLACED, 1), (2, 5, 1), (1, 5, 2)],
        stamp: b"ready",
    },
    // what another module set before is, too; the program ends such a transaction with PAM_BUF_ERR (5)
    Row {
        scene: Scene {
            file: b"auth required pam_probe.so set=a:w\nauth required forgetful.so\n",
            calls: &[(Func::Authenticate, 0)],
            status: 5,
        },
        answers: &[None],
        visits: &[Code::Success],
        swept: 2,
        receipts: &[(0, REPLACED, 256), (1, REPLACED, 1), (3, 5, 1), (2, 5, 2)],
        stamp: b"ready",
    },
];

#[test]
fn calls_follow_their_flags_and_fail_if_out_of_memory(rt: HostRuntime) -> Result<(), Fail> {
    let alloc = rt.alloc();
    let rule: DelayRule = Box::new(alloc, |_code: Code, asked: u32| asked.min(60_000_000))?;
    let delay = DelayFn::new(rule);
    let mods = fakes(alloc)?;
    if mods.len() > 9 {
        return Err("too many modules")?;
    }
    let gear = Gear { mods, delay };
    for row in ROWS.iter() {
        let outcome = play(alloc, &gear, &row.scene)?;
        assert_eq!(rt; outcome.answers.len(), row.answers.len());
        for (answer, want) in outcome.answers.iter().zip(row.answers.iter()) {
            assert_eq!(rt; *answer, want.ok_or(NoMemory), "at {:?}", row.visits);
        }
        assert_eq!(rt; outcome.visits.as_slice(), row.visits);
        assert_eq!(rt; outcome.swept, row.swept);
        assert_eq!(rt; outcome.receipts.as_slice(), row.receipts);
        assert_eq!(rt; outcome.stamp.bytes(), row.stamp);
    }
    Ok(())
}
