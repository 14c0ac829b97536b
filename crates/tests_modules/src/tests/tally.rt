use crate::tests::scene::{Outcome, Scene, serve};
use mod_tally::Faillock;
use pam_base::{Code, Func, ItemName};
use std::alloc::Global;
use std::test::Fail;

const FAILED: &[u8] = b"faillock 2\n3 S t\n";

const FAILED_AGAIN: &[u8] = b"faillock 2\n3 S t\n5 T tty1\n";

const CLEARED: &[u8] = b"faillock 2\n";

// Has pam_faillock serve a call for joe, whose tally is this one; one call of `Vault` is set to
// fail.
fn serve_joe(
    alloc: Global,
    func: Func,
    mode: &[u8],
    tally: &[u8],
    failing: u64,
) -> Result<Outcome, Fail> {
    let scene = Scene {
        files: &[
            (b"/etc/passwd", b"joe:x:1000:1000:Joe:/home/joe:/bin/sh\n"),
            (b"/var/run/faillock/joe", tally),
        ],
        failing,
        items: &[(ItemName::User, b"joe"), (ItemName::Tty, b"tty1")],
        func,
        words: &[mode],
        file: b"/var/run/faillock/joe",
    };
    serve(alloc, Box::new(alloc, Faillock::new())?, &scene)
}

#[test]
fn a_failure_that_can_not_be_recorded_is_service_err(rt: HostRuntime) -> Result<(), Fail> {
    let alloc = rt.alloc();
    // passwd, the lock, the tally, and its replacement
    for failing in 1..=4u64 {
        let outcome = serve_joe(alloc, Func::Authenticate, b"authfail", FAILED, failing)?;
        assert_eq!(rt; outcome.answer?, Code::ServiceErr);
        assert!(rt; outcome.file.bytes() == FAILED);
    }
    let outcome = serve_joe(alloc, Func::Authenticate, b"authfail", FAILED, 0)?;
    assert_eq!(rt; outcome.answer?, Code::Ignore);
    assert!(rt; outcome.file.bytes() == FAILED_AGAIN);
    Ok(())
}

#[test]
fn without_the_lock_preauth_is_service_err(rt: HostRuntime) -> Result<(), Fail> {
    let alloc = rt.alloc();
    // passwd, the tally, and the lock
    for failing in 1..=3u64 {
        let outcome = serve_joe(alloc, Func::Authenticate, b"preauth", FAILED, failing)?;
        assert_eq!(rt; outcome.answer?, Code::ServiceErr);
        assert!(rt; outcome.file.bytes() == FAILED);
    }
    let outcome = serve_joe(alloc, Func::Authenticate, b"preauth", FAILED, 0)?;
    assert_eq!(rt; outcome.answer?, Code::Success);
    assert!(rt; outcome.file.bytes() == FAILED);
    Ok(())
}

#[test]
fn failures_that_can_not_be_cleared_are_service_err(rt: HostRuntime) -> Result<(), Fail> {
    let alloc = rt.alloc();
    for func in [Func::Authenticate, Func::AcctMgmt] {
        // passwd, the tally, the lock, the tally again, and its replacement
        for failing in 1..=5u64 {
            let outcome = serve_joe(alloc, func, b"authsucc", FAILED, failing)?;
            assert_eq!(rt; outcome.answer?, Code::ServiceErr);
            assert!(rt; outcome.file.bytes() == FAILED);
        }
        let outcome = serve_joe(alloc, func, b"authsucc", FAILED, 0)?;
        assert_eq!(rt; outcome.answer?, Code::Success);
        assert!(rt; outcome.file.bytes() == CLEARED);
    }
    Ok(())
}

#[test]
fn without_failures_no_lock_is_taken(rt: HostRuntime) -> Result<(), Fail> {
    let alloc = rt.alloc();
    for func in [Func::Authenticate, Func::AcctMgmt] {
        // The module calls `Vault` twice, so the call that fails is the test's own.
        let outcome = serve_joe(alloc, func, b"authsucc", CLEARED, 3)?;
        assert_eq!(rt; outcome.answer?, Code::Success);
        assert!(rt; outcome.file.bytes().is_empty());
    }
    Ok(())
}
