//! Repeats a piece of work a given number of times and prints what came of it: what bench/codec and bench/ciphers measure.
//! Frames of 9P are decoded or encoded, and a sum of what was read or written is printed. DES, the seal of tickets, the
//! CRAM-MD5 answer or a password's key is made, each result being the next input, and the last result is printed.
#![tactic(auto)]

use anyhow::bail;
use frames::{decoded_sum, encoded_sum};
use std::env;
use work::{Work, final_digits};

mod frames;
mod work;

// The rounds of each work in a run without arguments.
const FEW_ROUNDS: u64 = 3;

fn report(rt: &HostRuntime, work: Work, rounds: u64) -> anyhow::Result<()> {
    let digits = final_digits(rt.alloc(), work, rounds)?;
    println!(rt; "{digits}")?;
    Ok(())
}

fn report_sum(rt: &HostRuntime, sum: Option<u64>) -> anyhow::Result<()> {
    let Some(sum) = sum else {
        bail!("a frame was refused, or memory ran out");
    };
    println!(rt; "{sum}")?;
    Ok(())
}

fn report_all(rt: &HostRuntime) -> anyhow::Result<()> {
    report_sum(rt, decoded_sum(rt.alloc(), FEW_ROUNDS))?;
    report_sum(rt, encoded_sum(rt.alloc(), FEW_ROUNDS))?;
    for work in Work::ALL {
        report(rt, work, FEW_ROUNDS)?;
    }
    Ok(())
}

fn report_named(rt: &HostRuntime, name: &str, rounds: u64) -> anyhow::Result<()> {
    match name {
        "decode" => report_sum(rt, decoded_sum(rt.alloc(), rounds)),
        "encode" => report_sum(rt, encoded_sum(rt.alloc(), rounds)),
        _ => {
            let Some(work) = Work::named(name) else {
                bail!(
                    "the work is one of decode, encode, encrypt, seal, cram, keyed, password and tickets"
                );
            };
            report(rt, work, rounds)
        }
    }
}

fn main(rt: HostRuntime) -> anyhow::Result<()> {
    let mut args = env::args(&rt)?;
    let _program = args.next();
    match (args.next(), args.next(), args.next()) {
        (None, None, None) => report_all(&rt),
        (Some(word), Some(count), None) => {
            report_named(&rt, word.as_str(), count.as_str().parse::<u64>()?)
        }
        _ => bail!("usage: bench_work [WORK ROUNDS]"),
    }
}
