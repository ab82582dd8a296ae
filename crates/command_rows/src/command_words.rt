// Rows of command lines and what is read of them.
use crate::came::Came;
use crate::stage::words_of;
use crate::texts::argument;
use anyhow::bail;
use auth_program::{
    AuthdNumbers, AuthdWords, AuthsrvWords, Status, read_authd_words, read_authsrv_words,
};
use factotum_program::{GenWords, is_world, read_gen_words};
use row_files::{Report, Row};
use std::alloc::Global;
use wire_base::Text;

// Puts that the words are no command's.
fn put_refusal(status: Status, came: &mut Came) -> anyhow::Result<()> {
    match status {
        Status::Usage => Ok(came.put(b"usage")?),
        _ => bail!("out of memory"),
    }
}

fn put_gen(words: &GenWords, came: &mut Came) -> anyhow::Result<()> {
    came.put_number(words.number)?;
    came.put_number(u64::from(words.rounds))
}

fn put_authsrv(words: &AuthsrvWords, came: &mut Came) -> anyhow::Result<()> {
    came.put(words.dom.as_slice())?;
    came.put(words.keys.as_slice())?;
    Ok(came.put(words.speaks.as_slice())?)
}

fn put_authd(words: &AuthdWords, came: &mut Came) -> anyhow::Result<()> {
    came.put(words.listen.as_slice())?;
    put_authsrv(&words.given, came)
}

fn put_numbers(numbers: AuthdNumbers, came: &mut Came) -> anyhow::Result<()> {
    came.put_number(u64::from(numbers.idle))?;
    came.put_number(u64::from(numbers.limits.clients))?;
    came.put_number(u64::from(numbers.limits.per_address))
}

// Puts what is read of the words of a command.
fn put_words(alloc: Global, command: &[u8], words: &[Text], came: &mut Came) -> anyhow::Result<()> {
    match command {
        b"gen" => match read_gen_words(alloc, words) {
            Ok(words) => put_gen(&words, came),
            Err(status) => put_refusal(status, came),
        },
        b"authsrv" => match read_authsrv_words(alloc, words) {
            Ok(words) => put_authsrv(&words, came),
            Err(status) => put_refusal(status, came),
        },
        b"authd" => match read_authd_words(alloc, words) {
            Ok(words) => put_authd(&words, came),
            Err(status) => put_refusal(status, came),
        },
        b"authd-numbers" => match read_authd_words(alloc, words) {
            Ok(words) => put_numbers(words.numbers, came),
            Err(status) => put_refusal(status, came),
        },
        b"world" => came.put_yes(is_world(words)),
        _ => bail!("no such command"),
    }
}

fn play_row(alloc: Global, row: &Row, came: &mut Came) -> anyhow::Result<()> {
    let words = words_of(alloc, argument(row, 1)?)?;
    put_words(alloc, row.word(), words.as_slice(), came)
}

/// Plays rows `COMMAND LINE`: what is read of the words of a command.
pub(crate) fn play(
    alloc: Global,
    file: &str,
    rows: &[Row],
    report: &mut Report,
) -> anyhow::Result<()> {
    for row in rows {
        let mut came = Came::new(alloc);
        let played = play_row(alloc, row, &mut came);
        came.tell(file, row, played, report)?;
    }
    Ok(())
}
