use crate::tests::scene::{Scene, serve};
use mod_unix::Unix;
use pam_base::{Func, ItemName};
use std::alloc::Global;
use std::test::Fail;

const PASSWD: &[u8] = b"joe:x:1000:1000:Joe:/home/joe:/bin/sh\n";

const SHADOW: &[u8] =
    b"joe:$5$saltstring$5B8vYYiY.CVt1RlTTf8KbXBH3hsxY/GNooZaBBGWEc5:19000:0:99999:7:::\n";

// The result of one call.
#[derive(Drop)]
struct Outcome {
    answer: u32,
    // Whether shadow is as it was.
    kept: bool,
}

// Has pam_unix serve a call for joe, with one argument and this AUTHTOK; one call of `Vault` is set
// to fail.
fn serve_joe(
    alloc: Global,
    func: Func,
    argument: &[u8],
    token: &[u8],
    failing: u64,
) -> Result<Outcome, Fail> {
    let scene = Scene {
        files: &[(b"/etc/passwd", PASSWD), (b"/etc/shadow", SHADOW)],
        failing,
        items: &[(ItemName::User, b"joe"), (ItemName::AuthTok, token)],
        func,
        words: &[argument],
        file: b"/etc/shadow",
    };
    let outcome = serve(alloc, Box::new(alloc, Unix::new())?, &scene)?;
    Ok(Outcome {
        answer: outcome.answer? as u32,
        kept: outcome.file.bytes() == SHADOW,
    })
}

#[test]
fn each_call_of_the_vault_fails_in_turn(rt: HostRuntime) -> Result<(), Fail> {
    let alloc = rt.alloc();
    // passwd, shadow, the lock, shadow again, and the replacement
    for (failing, answer) in [(1, 9), (2, 9), (3, 20), (4, 20), (5, 20)] {
        let outcome = serve_joe(alloc, Func::ChAuthTok, b"use_authtok", b"n", failing)?;
        assert_eq!(rt; (outcome.answer, outcome.kept), (answer, true));
    }
    let outcome = serve_joe(alloc, Func::ChAuthTok, b"use_authtok", b"n", 0)?;
    assert_eq!(rt; (outcome.answer, outcome.kept), (0, false));
    for failing in [1, 2] {
        let outcome = serve_joe(
            alloc,
            Func::Authenticate,
            b"use_first_pass",
            b"Hello world!",
            failing,
        )?;
        assert_eq!(rt; outcome.answer, 9);
        let outcome = serve_joe(alloc, Func::AcctMgmt, b"", b"", failing)?;
        assert_eq!(rt; outcome.answer, 9);
    }
    Ok(())
}

#[test]
fn a_token_has_1_to_512_bytes(rt: HostRuntime) -> Result<(), Fail> {
    let alloc = rt.alloc();
    let outcome = serve_joe(alloc, Func::ChAuthTok, b"use_authtok", b"", 0)?;
    assert_eq!(rt; (outcome.answer, outcome.kept), (20, true));
    let mut token = Vec::new(alloc);
    for _ in 0..512usize {
        token.push(b'x')?;
    }
    let outcome = serve_joe(alloc, Func::ChAuthTok, b"use_authtok", &token, 0)?;
    assert_eq!(rt; (outcome.answer, outcome.kept), (0, false));
    token.push(b'x')?;
    let outcome = serve_joe(alloc, Func::ChAuthTok, b"use_authtok", &token, 0)?;
    assert_eq!(rt; (outcome.answer, outcome.kept), (20, true));
    let outcome = serve_joe(alloc, Func::Authenticate, b"use_first_pass", &token, 0)?;
    assert_eq!(rt; outcome.answer, 7);
    Ok(())
}
