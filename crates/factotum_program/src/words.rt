// The words of a command line: whether they have the form of a command's words, and the values that clap reads of them.
ghost use Rattle.std.specs.Prelude.{◌≡◌, ◌&&◌, codes, IfErr, IfOk, Some, true, false};
ghost use Rattle.std.specs.List.{list_all};
ghost use Rattle.clap.specs.Words.{app_of};
ghost use Rattle.wire_base.specs.Texts.{is_text};
ghost use Rattle.auth_program.specs.Words.{is_value};
ghost use Rattle.auth_program.specs.Reading.{bytes_of};
ghost use Rattle.factotum_program.specs.Words.{IsTask, IsUnread, auth_given, has_auth_form, is_pipe_alone};
ghost use Rattle.factotum_program.specs.Reading.{pipe_app};

use auth_program::{
    AuthsrvWords, Status, as_str, copy_value, is_value, read_authsrv_words, required_option,
};
use clap::Command;
use clap::error::ErrorKind;
use std::alloc::Global;
use wire_base::{NoMemory, Text};
use world_program::{GenWords, has_gen_form, is_world, read_gen_words};

/// What the words of a command line ask for.
#[derive(Drop)]
pub enum Task {
    /// One connection of 9P, beside the authentication server at an address, if one is given.
    Pipe { auth: Option<Text> },
    /// The authentication server, for one client.
    Authsrv(AuthsrvWords),
    /// A script that is read is run.
    World,
    /// The script of a number is run.
    Gen(GenWords),
}

// Whether the words are the one word `pipe`.
fn is_pipe_alone(words: &[Text]) -> bool
    ensures { result ≡ is_pipe_alone words.now }
{
    match words {
        [word] => word.as_slice() == b"pipe".as_slice(),
        _ => false,
    }
}

// Whether the words have the form of those of `pipe` with its option.
fn has_auth_form(words: &[Text]) -> bool
    ensures { result ≡ has_auth_form words.now }
{
    match words {
        [name, option, value] => {
            name.as_slice() == b"pipe".as_slice()
                && option.as_slice() == b"--auth".as_slice()
                && is_value(value.as_slice())
        }
        _ => false,
    }
}

// The command of `pipe`.
fn pipe_command<'a>(alloc: Global) -> Result<Command<'a>, NoMemory>
    ensures { IfOk result (λ command. app_of command ≡ pipe_app) }
{
    Ok(Command::new(alloc, "pipe").arg(required_option(alloc, "auth"))?)
}

// The value of the option of `pipe`, as clap reads it.
fn parse_auth(alloc: Global, texts: &[&str]) -> Result<Text, Status>
    requires form { has_auth_form (bytes_of texts.now) ≡ true }
    requires text { list_all is_text (bytes_of texts.now) ≡ true }
    ensures ok { IfOk result (λ auth. auth_given (bytes_of texts.now) ≡ Some auth) }
    ensures err { IfErr result (λ status. status ≡ Status.NoMemory) }
{
    let command = pipe_command(alloc)?;
    match command.try_get_matches_from(texts) {
        Ok(matches) => Ok(copy_value(alloc, &matches, "auth")?),
        Err(error) => match error.kind() {
            ErrorKind::OutOfMemory => Err(Status::NoMemory),
            _ => unreachable!(),
        },
    }
}

// The value of the option of `pipe`.
fn read_auth(alloc: Global, words: &[Text]) -> Result<Text, Status>
    requires { has_auth_form words.now ≡ true }
    ensures ok { IfOk result (λ auth. auth_given words.now ≡ Some auth) }
    ensures err { IfErr result (λ status. status ≡ Status.NoMemory) }
{
    let [name, option, value] = words else {
        unreachable!();
    };
    let texts = [as_str(name), as_str(option), as_str(value)];
    parse_auth(alloc, texts.as_slice())
}

/// What the words behind the program's name ask for. Usage comes where they are no command's words; memory runs out only
/// where they have a command's form, of which clap reads the values.
pub fn read_words(alloc: Global, words: &[Text]) -> Result<Task, Status>
    ensures ok { IfOk result (λ task. IsTask words.now task) }
    ensures err { IfErr result (IsUnread words.now) }
{
    if is_pipe_alone(words) {
        return Ok(Task::Pipe { auth: None });
    }
    if has_auth_form(words) {
        let auth = read_auth(alloc, words)?;
        return Ok(Task::Pipe { auth: Some(auth) });
    }
    if is_world(words) {
        return Ok(Task::World);
    }
    if has_gen_form(words) {
        let given = read_gen_words(alloc, words)?;
        return Ok(Task::Gen(given));
    }
    let given = read_authsrv_words(alloc, words)?;
    Ok(Task::Authsrv(given))
}
