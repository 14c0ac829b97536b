use crate::tests::scene::{Outcome, Scene, serve};
use mod_env::Env;
use mod_lists::{Listfile, Nologin, Shells, SucceedIf};
use pam_base::{Code, Func, ItemName};
use std::alloc::Global;
use std::test::Fail;

// The files, and what they hold.
static FILES: [(&[u8], &[u8]); 7] = [
    (b"/etc/passwd", b"joe:x:1000:1000:Joe:/home/joe:/bin/sh\n"),
    (b"/etc/group", b"staff:x:50:joe\n"),
    (b"/etc/shells", b"/bin/sh\n"),
    (b"/etc/nologin", b"closed\n"),
    (b"/etc/list", b"staff\ntty1\n"),
    (b"/etc/security/pam_env.conf", b"A DEFAULT=@{HOME}\n"),
    (b"/etc/environment", b"B=1\n"),
];

// The modules.
#[derive(Clone, Copy)]
enum Asked {
    Env,
    Listfile,
    Nologin,
    Shells,
    SucceedIf,
}

// Has a module serve a call for joe at a terminal, with these arguments; one call of `Vault` is set
// to fail.
fn serve_joe(alloc: Global, asked: Asked, words: &[&[u8]], failing: u64) -> Result<Outcome, Fail> {
    let func = match asked {
        Asked::Env => Func::OpenSession,
        Asked::Nologin => Func::AcctMgmt,
        Asked::Listfile | Asked::Shells | Asked::SucceedIf => Func::Authenticate,
    };
    let scene = Scene {
        files: &FILES,
        failing,
        items: &[(ItemName::User, b"joe"), (ItemName::Tty, b"/dev/tty1")],
        func,
        words,
        file: b"/etc/passwd",
    };
    match asked {
        Asked::Env => serve(alloc, Box::new(alloc, Env::new())?, &scene),
        Asked::Listfile => serve(alloc, Box::new(alloc, Listfile::new())?, &scene),
        Asked::Nologin => serve(alloc, Box::new(alloc, Nologin::new())?, &scene),
        Asked::Shells => serve(alloc, Box::new(alloc, Shells::new())?, &scene),
        Asked::SucceedIf => serve(alloc, Box::new(alloc, SucceedIf::new())?, &scene),
    }
}

// joe is refused, or one of three files can't be read; there is no fourth call.
static REFUSALS: [Code; 5] = [
    Code::AuthErr,
    Code::ServiceErr,
    Code::ServiceErr,
    Code::ServiceErr,
    Code::AuthErr,
];

// What a module returns if no call of `Vault` fails, and then if each of n in turn does.
fn answers_of(alloc: Global, asked: Asked, words: &[&[u8]], n: u64) -> Result<Vec<Code>, Fail> {
    let mut answers = Vec::new(alloc);
    for failing in 0..=n {
        answers.push(serve_joe(alloc, asked, words, failing)?.answer?)?;
    }
    Ok(answers)
}

#[test]
fn a_notice_or_passwd_that_fails_is_service_err(rt: HostRuntime) -> Result<(), Fail> {
    // /var/run/nologin, /etc/nologin, passwd
    let answers = answers_of(rt.alloc(), Asked::Nologin, &[], 4)?;
    assert_eq!(rt; answers.as_slice(), REFUSALS.as_slice());
    Ok(())
}

#[test]
fn passwd_or_shells_that_fails_is_auth_err(rt: HostRuntime) -> Result<(), Fail> {
    // passwd, shells
    static ANSWERS: [Code; 4] = [Code::Success, Code::AuthErr, Code::AuthErr, Code::Success];
    let answers = answers_of(rt.alloc(), Asked::Shells, &[], 3)?;
    assert_eq!(rt; answers.as_slice(), ANSWERS.as_slice());
    Ok(())
}

#[test]
fn a_file_of_a_list_that_fails_is_the_error_answer(rt: HostRuntime) -> Result<(), Fail> {
    // passwd, group, the list: for the user's groups, and to see whether the list is for the user
    static WORDS: [&[&[u8]]; 2] = [
        &[b"item=group", b"sense=deny", b"file=/etc/list"],
        &[
            b"item=tty",
            b"sense=deny",
            b"file=/etc/list",
            b"apply=@staff",
        ],
    ];
    for words in WORDS.iter() {
        let answers = answers_of(rt.alloc(), Asked::Listfile, words, 4)?;
        assert_eq!(rt; answers.as_slice(), REFUSALS.as_slice());
    }
    Ok(())
}

#[test]
fn a_file_of_a_condition_that_fails_is_service_err(rt: HostRuntime) -> Result<(), Fail> {
    // passwd, group
    static ANSWERS: [Code; 4] = [
        Code::Success,
        Code::ServiceErr,
        Code::ServiceErr,
        Code::Success,
    ];
    let words: &[&[u8]] = &[b"user", b"ingroup", b"staff"];
    let answers = answers_of(rt.alloc(), Asked::SucceedIf, words, 3)?;
    assert_eq!(rt; answers.as_slice(), ANSWERS.as_slice());
    Ok(())
}

#[test]
fn where_a_file_of_variables_fails_nothing_is_set(rt: HostRuntime) -> Result<(), Fail> {
    let alloc = rt.alloc();
    // pam_env.conf, environment
    static FAILING: [u64; 2] = [1, 2];
    for failing in FAILING.iter() {
        let outcome = serve_joe(alloc, Asked::Env, &[], *failing)?;
        assert_eq!(rt; outcome.answer, Ok(Code::ServiceErr));
        assert!(rt; outcome.variables.is_empty());
    }
    Ok(())
}

#[test]
fn where_passwd_fails_the_home_is_empty(rt: HostRuntime) -> Result<(), Fail> {
    let alloc = rt.alloc();
    // passwd is the third call, and the last
    static VALUES: [(u64, &[u8]); 3] = [(0, b"A=/home/joe"), (3, b"A="), (4, b"A=/home/joe")];
    for (failing, variable) in VALUES.iter() {
        let outcome = serve_joe(alloc, Asked::Env, &[], *failing)?;
        assert_eq!(rt; outcome.answer, Ok(Code::Success));
        let variables = outcome.variables.items();
        assert_eq!(rt; variables.len(), 2);
        assert!(rt; variables[0].bytes() == *variable);
        assert!(rt; variables[1].bytes() == b"B=1".as_slice());
    }
    Ok(())
}
