// Which clients are let in, and how long an address waits.
use crate::fields::{Came, number_at, text_at, verb_of, word_at};
use anyhow::bail;
use client_doors::{Address, ClientLimits, Limits};
use row_files::{Report, Row};
use std::alloc::Global;
use std::net::IpAddr;

pub(crate) fn play(
    alloc: Global,
    file: &str,
    rows: &[Row],
    report: &mut Report,
) -> anyhow::Result<()> {
    let mut limits = ClientLimits::new(alloc, no_limits())?;
    for row in rows {
        if verb_of(row) == "limits" {
            limits = ClientLimits::new(alloc, limits_of(row)?)?;
            continue;
        }
        let mut came = Came::new(alloc);
        step(&mut limits, row, &mut came)?;
        report.compare(alloc, file, row, came.fields())?;
    }
    Ok(())
}

fn no_limits() -> Limits {
    Limits {
        clients: 0,
        per_address: 0,
    }
}

fn limits_of(row: &Row) -> anyhow::Result<Limits> {
    Ok(Limits {
        clients: word_at(row, 1)?,
        per_address: word_at(row, 2)?,
    })
}

fn step(limits: &mut ClientLimits, row: &Row, came: &mut Came) -> anyhow::Result<()> {
    let address = address_at(row, 1)?;
    match verb_of(row) {
        "came" => Ok(came.flag(limits.admit(address))?),
        "left" => {
            limits.leave(address);
            Ok(())
        }
        "wrong" => {
            for _ in 0..number_at(row, 3)? {
                limits.note_wrong(address, number_at(row, 2)?)?;
            }
            Ok(())
        }
        "wait" => came.number(limits.wait(address, number_at(row, 2)?)),
        "address" => shown(address, came),
        _ => Ok(came.word("no such verb")?),
    }
}

fn shown(address: Option<Address>, came: &mut Came) -> anyhow::Result<()> {
    match address {
        Some(address) => came.shown(&address.ip()),
        None => Ok(came.word("none")?),
    }
}

// The address that a field spells; a hyphen is none.
fn address_at(row: &Row, at: usize) -> anyhow::Result<Option<Address>> {
    let text = text_at(row, at);
    if text == "-" {
        return Ok(None);
    }
    match text.parse::<IpAddr>() {
        Ok(ip) => Ok(Some(Address::new(ip))),
        Err(_) => bail!("line {}: no address", row.line),
    }
}
