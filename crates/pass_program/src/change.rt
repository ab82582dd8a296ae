// What a client asks for behind its ticket: the message of 90 bytes, and the tests that it has to pass.
ghost use Rattle.std.specs.Prelude.{◌≡◌, ◌+◌, ◌≤◌, ◌<◌, ◌^◌, ◌==◌, ◌&&◌, IfOk, true, length, nat_le, option_copied};
ghost use Rattle.std.specs.List.{list_all, position};
ghost use Rattle.sealing.specs.Fields.{name_in};
ghost use Rattle.auth_tables.specs.Printing.{is_new_password};
ghost use Rattle.pass_program.specs.Changes.{asked_of, change_of, is_password, judged};

use crate::refusal::Refusal;
use auth_tables::{AsKey, KeyTable};
use sealing::{AUTH_PASS, FieldFault, Key7, open_seal, pass_to_key};
use wire_base::Name;

/// How many bytes a message has.
pub(crate) const MESSAGE_BYTES: usize = 90;

/// The least bytes of a new password.
const LEAST_PASSWORD: usize = 8;

/// A change of a password as a client asks for it (authsrv(6)). It has no Debug, which would print passwords.
#[derive(Clone, Copy)]
pub(crate) struct Change {
    num: u8,
    old: Name<28>,
    new: Name<28>,
    changes_secret: u8,
}

// Where the first NUL stands.
fn nul_in(field: &[u8]) -> Option<usize>
    ensures { result ≡ position (λ b. b == 0) field.now }
{
    field.iter().position(|byte| *byte == 0)
}

// The name in the field of `N` bytes at an offset. The records of `sealing` are read so too, by a function of its own.
#[tactic(auto, unfolding(sealing::specs::Fields::name_in, sealing::specs::Fields::before_nul))]
fn name_at<const N: usize>(bytes: &[u8], at: usize) -> Result<Name<N>, FieldFault>
    requires inside { at + N ≤ length bytes.now }
    requires small { at < 2 ^ 32 }
    ensures { result ≡ name_in at N bytes.now }
{
    let field = &bytes[at..at + N];
    let Some(end) = nul_in(field) else {
        return Err(FieldFault::NoNul { field: at as u32 });
    };
    match Name::from_text(&field[..end]) {
        Some(name) => Ok(name),
        None => Err(FieldFault::NotText { field: at as u32 }),
    }
}

// The fields of a message that was opened.
#[tactic(auto, unfolding(crate::specs::Changes::change_of))]
fn read_change(bytes: &[u8; MESSAGE_BYTES]) -> Result<Change, FieldFault>
    ensures { result ≡ change_of bytes.now }
{
    Ok(Change {
        num: bytes[0],
        old: name_at(bytes, 1)?,
        new: name_at(bytes, 29)?,
        changes_secret: bytes[57],
    })
}

// Whether a password is the one of a user, if there is such a user.
fn is_password(key: Option<&AsKey>, password: &[u8]) -> bool
    ensures { result ≡ is_password (option_copied key.entry) password.now }
{
    match key {
        Some(key) => key.des() == pass_to_key(password),
        None => false,
    }
}

// Whether all bytes are those of text that is shown, or of UTF-8.
fn is_shown(password: &[u8]) -> bool
    ensures { result ≡ list_all (nat_le 32) password.now }
{
    password.iter().all(|byte| *byte >= b' ')
}

// Whether a name may be a new password.
#[tactic(auto, using(crate::proofs::ChangeLemmas::of_name))]
fn is_new_password(password: &Name<28>) -> bool
    ensures { result ≡ is_new_password password.now }
{
    let text = password.text();
    text.len() >= LEAST_PASSWORD && is_shown(text)
}

// The new password that a user asks for, or the first test that he doesn't pass.
#[tactic(auto, unfolding(crate::specs::Changes::asked_of))]
fn test_change(key: Option<&AsKey>, change: &Change) -> Result<Name<28>, Refusal>
    ensures same { result ≡ asked_of (option_copied key.entry) change.now }
    ensures good { IfOk result (λ password. is_new_password password ≡ true) }
{
    if change.num != AUTH_PASS {
        return Err(Refusal::BadRequest);
    }
    if !is_password(key, change.old.text()) {
        return Err(Refusal::BadOldPassword);
    }
    if !is_new_password(&change.new) {
        return Err(Refusal::BadNewPassword);
    }
    if change.changes_secret != 0 {
        return Err(Refusal::NoSecretKept);
    }
    Ok(change.new)
}

/// The new password that a user asks for by a sealed message, or why it is refused.
#[tactic(auto, unfolding(crate::specs::Changes::judged))]
pub(crate) fn judge(
    keys: &KeyTable,
    user: &Name<28>,
    key: &Key7,
    message: &[u8; MESSAGE_BYTES],
) -> Result<Name<28>, Refusal>
    ensures same { result ≡ judged keys.now user.now key.now.0 message.now }
    ensures good { IfOk result (λ password. is_new_password password ≡ true) }
{
    let mut bytes = *message;
    open_seal(key, &mut bytes);
    match read_change(&bytes) {
        Ok(change) => test_change(keys.find(user.text()), &change),
        Err(_) => Err(Refusal::BadRequest),
    }
}
