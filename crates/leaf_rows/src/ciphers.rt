// DES, keys of digits and passwords, the seal, and the digests of challenges.
use crate::fields::{Came, byte_at, bytes_at, digits_at, number_at, text_of, verb_of};
use anyhow::bail;
use des_block::{Schedule, combined};
use key_lists::{choose_key, decode_key};
use row_files::{Report, Row};
use sealing::{Key7, apop_answer, cram_answer, expand56, hmac_md5, open_seal, pass_to_key, seal};
use std::alloc::Global;
use wire_base::Text;

pub(crate) fn play(
    alloc: Global,
    file: &str,
    rows: &[Row],
    report: &mut Report,
) -> anyhow::Result<()> {
    for row in rows {
        let mut came = Came::new(alloc);
        answer(alloc, row, &mut came)?;
        report.compare(alloc, file, row, came.fields())?;
    }
    Ok(())
}

fn answer(alloc: Global, row: &Row, came: &mut Came) -> anyhow::Result<()> {
    match verb_of(row) {
        "des" => {
            let schedule = Schedule::new(&digits_at(row, 1)?);
            let cipher = schedule.encrypt(digits_at(row, 2)?);
            came.digits(&cipher)?;
            came.digits(&schedule.decrypt(cipher))
        }
        "rounds" => {
            let schedule = Schedule::new(&digits_at(row, 1)?);
            let [first, .., last] = schedule.rounds();
            came.digits(&first.to_be_bytes())?;
            came.digits(&last.to_be_bytes())
        }
        "look-up" => look_up(byte_at(row, 1)?, byte_at(row, 2)?, came),
        "key" => match decode_key(bytes_at(row, 1)) {
            Some(key) => came.digits(&key.0),
            None => Ok(came.word("none")?),
        },
        "choose" => choose(alloc, bytes_at(row, 1), bytes_at(row, 2), came),
        "password" => came.digits(&pass_to_key(bytes_at(row, 1)).0),
        "expand" => came.digits(&expand56(&Key7(digits_at(row, 1)?))),
        "seal" => seal_counted(alloc, &Key7(digits_at(row, 1)?), number_at(row, 2)?, came),
        "apop" => Ok(came.bytes(&apop_answer(bytes_at(row, 1), bytes_at(row, 2)))?),
        "cram" => Ok(came.bytes(&cram_answer(bytes_at(row, 1), bytes_at(row, 2)))?),
        "hmac" => came.digits(&hmac_md5(bytes_at(row, 1), bytes_at(row, 2))),
        _ => Ok(came.word("no such verb")?),
    }
}

// What a selection function and the permutation behind it give of six bits.
fn look_up(number: u8, six: u8, came: &mut Came) -> anyhow::Result<()> {
    if number >= 8 || six >= 64 {
        bail!("no selection function of six bits");
    }
    came.digits(&combined(number, six).to_be_bytes())
}

// The key of digits, where there are any, or of a password.
fn choose(alloc: Global, digits: &[u8], password: &[u8], came: &mut Came) -> anyhow::Result<()> {
    let password = match password {
        [] => None,
        _ => Some(text_of(alloc, password)?),
    };
    if decode_key(digits).is_none() {
        return came.digits(&choose_key(None, password.as_ref()).0);
    }
    let digits = text_of(alloc, digits)?;
    choose_digits(&digits, password.as_ref(), came)
}

fn choose_digits(digits: &Text, password: Option<&Text>, came: &mut Came) -> anyhow::Result<()> {
    if decode_key(digits.as_slice()).is_none() {
        bail!("no digits");
    }
    came.digits(&choose_key(Some(digits), password).0)
}

// The bytes 0, 1, 2 .. sealed, and opened again.
fn seal_counted(alloc: Global, key: &Key7, count: u64, came: &mut Came) -> anyhow::Result<()> {
    let mut text = Vec::new(alloc);
    for number in 0..=255u8 {
        if u64::from(number) < count {
            text.push(number)?;
        }
    }
    seal_whole(key, text.as_mut_slice(), came)?;
    open_whole(key, text.as_mut_slice(), came)
}

fn seal_whole(key: &Key7, text: &mut [u8], came: &mut Came) -> anyhow::Result<()> {
    if text.len() < 8 {
        bail!("a seal has eight bytes or more");
    }
    seal(key, text);
    came.digits(text)
}

fn open_whole(key: &Key7, text: &mut [u8], came: &mut Came) -> anyhow::Result<()> {
    if text.len() < 8 {
        bail!("a seal has eight bytes or more");
    }
    open_seal(key, text);
    came.digits(text)
}
