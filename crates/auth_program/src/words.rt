// The words of `authsrv`: whether they have the form of its words, and the values that clap reads of them.
ghost use Rattle.std.specs.Prelude.{◌≡◌, ◌&&◌, ◌∷◌, [], codes, IfErr, IfOk, true, false};
ghost use Rattle.std.specs.List.{list_all};
ghost use Rattle.attr_tuples.specs.Forms.{is_dom};
ghost use Rattle.clap.specs.Words.{app_of};
ghost use Rattle.wire_base.specs.Texts.{is_text};
ghost use Rattle.auth_program.specs.Statuses.{is_printable};
ghost use Rattle.auth_program.specs.Words.{HasValues, IsAuthsrv, IsUnreadAuthsrv, authsrv_options, has_authsrv_form, is_among, is_value};
ghost use Rattle.auth_program.specs.Reading.{authsrv_app, bytes_of};

use crate::options::{as_str, copy_value, required_option};
use crate::status::Status;
use attr_tuples::is_dom;
use clap::Command;
use clap::error::ErrorKind;
use std::alloc::Global;
use wire_base::{NoMemory, Text};

/// The values of the authentication server's options.
#[derive(Drop)]
pub struct AuthsrvWords {
    /// Its authentication domain.
    pub dom: Text,
    /// The path of the file of keys.
    pub keys: Text,
    /// The path of the file of who speaks for whom.
    pub speaks: Text,
}

/// Whether a word may be a value.
pub fn is_value(word: &[u8]) -> bool
    ensures { result ≡ is_value word.now }
{
    match word {
        [] => false,
        [byte, ..] => *byte != b'-',
    }
}

// Whether one of the three words is the option.
fn is_given(first: &[u8], second: &[u8], third: &[u8], option: &[u8]) -> bool
    ensures { result ≡ is_among (first.now ∷ second.now ∷ third.now ∷ []) option.now }
{
    first == option || second == option || third == option
}

// Whether the three words are the options of `authsrv`.
fn has_options(first: &[u8], second: &[u8], third: &[u8]) -> bool
    ensures { result
        ≡ list_all (is_among (first.now ∷ second.now ∷ third.now ∷ [])) authsrv_options }
{
    is_given(first, second, third, b"--dom")
        && is_given(first, second, third, b"--keys")
        && is_given(first, second, third, b"--speaks")
}

// Whether the words have the form of those of `authsrv`.
fn has_authsrv_form(words: &[Text]) -> bool
    ensures { result ≡ has_authsrv_form words.now }
{
    match words {
        [name, first, a, second, b, third, c] => {
            name.as_slice() == b"authsrv".as_slice()
                && has_options(first.as_slice(), second.as_slice(), third.as_slice())
                && are_values(a.as_slice(), b.as_slice(), c.as_slice())
        }
        _ => false,
    }
}

// Whether each of the three words may be a value.
fn are_values(a: &[u8], b: &[u8], c: &[u8]) -> bool
    ensures { result ≡ (is_value a.now && (is_value b.now && is_value c.now)) }
{
    is_value(a) && is_value(b) && is_value(c)
}

// The command of `authsrv`.
fn authsrv_command<'a>(alloc: Global) -> Result<Command<'a>, NoMemory>
    ensures { IfOk result (λ command. app_of command ≡ authsrv_app) }
{
    Ok(
        Command::new(alloc, "authsrv")
            .arg(required_option(alloc, "dom"))?
            .arg(required_option(alloc, "keys"))?
            .arg(required_option(alloc, "speaks"))?,
    )
}

// The values of the options of `authsrv`, as clap reads them.
fn parse_authsrv(alloc: Global, texts: &[&str]) -> Result<AuthsrvWords, Status>
    requires form { has_authsrv_form (bytes_of texts.now) ≡ true }
    requires text { list_all is_text (bytes_of texts.now) ≡ true }
    ensures ok { IfOk result (λ given. HasValues (bytes_of texts.now) given) }
    ensures err { IfErr result (λ status. status ≡ Status.NoMemory) }
{
    let command = authsrv_command(alloc)?;
    match command.try_get_matches_from(texts) {
        Ok(matches) => Ok(AuthsrvWords {
            dom: copy_value(alloc, &matches, "dom")?,
            keys: copy_value(alloc, &matches, "keys")?,
            speaks: copy_value(alloc, &matches, "speaks")?,
        }),
        Err(error) => match error.kind() {
            ErrorKind::OutOfMemory => Err(Status::NoMemory),
            _ => unreachable!(),
        },
    }
}

// The values of the options of `authsrv`.
fn read_authsrv(alloc: Global, words: &[Text]) -> Result<AuthsrvWords, Status>
    requires { has_authsrv_form words.now ≡ true }
    ensures ok { IfOk result (λ given. HasValues words.now given) }
    ensures err { IfErr result (λ status. status ≡ Status.NoMemory) }
{
    let [name, first, a, second, b, third, c] = words else {
        unreachable!();
    };
    let texts = [
        as_str(name),
        as_str(first),
        as_str(a),
        as_str(second),
        as_str(b),
        as_str(third),
        as_str(c),
    ];
    parse_authsrv(alloc, texts.as_slice())
}

/// What the words behind the program's name, `authsrv` and its options, say. Usage comes where they aren't so; memory runs
/// out only where they have the form, of which clap reads the values.
pub fn read_authsrv_words(alloc: Global, words: &[Text]) -> Result<AuthsrvWords, Status>
    ensures ok { IfOk result (IsAuthsrv words.now) }
    ensures dom { IfOk result (λ given. is_dom given.dom ≡ true) }
    ensures err { IfErr result (IsUnreadAuthsrv words.now) }
    ensures printable { IfErr result (λ status. is_printable status ≡ true) }
{
    if !has_authsrv_form(words) {
        return Err(Status::Usage);
    }
    let given = read_authsrv(alloc, words)?;
    if is_dom(given.dom.as_slice()) {
        Ok(given)
    } else {
        Err(Status::Usage)
    }
}
