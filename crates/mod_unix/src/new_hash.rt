ghost use Rattle.std.specs.Prelude.{◌≡◌, ◌≤◌, ◌++◌, IfOk, OnOk, length};
ghost use Rattle.std.specs.Option.{option_copied};
ghost use Rattle.sha_crypt.specs.Characters.{characters};
ghost use Rattle.mod_unix.specs.NewHash.{hashed_token, method_text, new_setting, rounds_in, rounds_of};

use module_acts::{has_argument, short_number};
use pam_base::{MAX_TEXT, NoMemory, Text};
use pam_room::Call;
use sha_crypt::{crypt, laws};
use std::alloc::Global;

const ALPHABET: [u8; 64] = *b"./0123456789ABCDEFGHIJKLMNOPQRSTUVWXYZabcdefghijklmnopqrstuvwxyz";

/// The hash of a token under a new setting, with a random word.
#[tactic(auto, unfolding(crate::specs::NewHash::hashed_token))]
pub(crate) fn hashed_token(
    alloc: Global,
    call: &Call,
    word: u64,
    token: &[u8],
) -> Result<Text, NoMemory>
    requires { length token.now ≤ MAX_TEXT }
    ensures { IfOk result (λ hash. hash ≡ hashed_token call.now.args.now word token.now) }
{
    laws::plain_settings_have_no_fault();
    let setting = new_setting(alloc, call, word)?;
    match crypt(setting.bytes(), token) {
        Ok(hash) => Ok(Text::from_bytes(alloc, hash.bytes())?),
        Err(_) => unreachable!(),
    }
}

// The setting for a new hash, with a random word.
#[tactic(auto, unfolding(crate::specs::NewHash::new_setting))]
fn new_setting(alloc: Global, call: &Call, word: u64) -> Result<Text, NoMemory>
    ensures { IfOk result (λ text. text ≡ new_setting call.now.args.now word) }
{
    let mut text = Vec::new(alloc);
    if has_argument(b"sha256", call.args) {
        text.extend_from_slice(b"$5$")?;
    } else {
        text.extend_from_slice(b"$6$")?;
    }
    put_rounds(&mut text, alloc, call.value(b"rounds="))?;
    put_salt(&mut text, word)?;
    Ok(Text::from_vec(text))
}

fn put_rounds(text: &mut Vec<u8>, alloc: Global, word: Option<&[u8]>) -> Result<(), NoMemory>
    ensures { OnOk result (text.new.items ≡ text.old.items
        ++ rounds_in (option_copied word.entry)) }
{
    let Some(word) = word else {
        return Ok(());
    };
    if let Some(rounds) = short_number(word, 9) {
        let rounds = rounds.min(1_000_000).max(1_000);
        let named = format!(in alloc; "rounds={rounds}$")?;
        text.extend_from_slice(named.as_bytes())?;
    }
    Ok(())
}

// Adds eight characters of a word.
fn put_salt(text: &mut Vec<u8>, word: u64) -> Result<(), NoMemory>
    ensures { OnOk result (text.new.items ≡ text.old.items ++ characters 8 word) }
{
    let mut left = word;
    for i in 0..8usize {
        text.push(ALPHABET[(left % 64) as usize])?;
        left /= 64;
    }
    Ok(())
}
