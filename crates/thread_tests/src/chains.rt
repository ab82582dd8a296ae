// Chains of prompters, by hand.
use crate::expect::expect;
use attr_tuples::parse_tuple;
use prompters::{Chain, Deny, Limited, Prompter, Say};
use side_files::Question;
use std::alloc::Global;
use std::process::Abort;
use std::test::Fail;

static P9SK1: &[u8] = b"proto=p9sk1 dom=x user=ann";

static APOP: &[u8] = b"proto=apop user=ann";

// The tuple of a question, the answer to it, and how many prompters there are then.
type Row = (&'static [u8], Say, usize);

fn limited(alloc: Global, template: &[u8], left: u32) -> Result<Limited, Fail> {
    match parse_tuple(alloc, template) {
        Ok(template) => Ok(Limited { template, left }),
        Err(_) => Err("template".into()),
    }
}

fn question(alloc: Global, tuple: &[u8]) -> Result<Question, Fail> {
    match parse_tuple(alloc, tuple) {
        Ok(tuple) => Ok(Question {
            confirm: true,
            tag: 1,
            tuple,
        }),
        Err(_) => Err("tuple".into()),
    }
}

fn check(rt: &impl Abort, alloc: Global, chain: &mut Chain, rows: &[Row]) -> Result<(), Fail> {
    for (tuple, word, length) in rows {
        let q = question(alloc, tuple)?;
        expect(rt, &chain.answer(&q), word);
        expect(rt, &chain.len(), length);
    }
    Ok(())
}

#[test]
fn the_first_that_does_not_pass_answers(rt: HostRuntime) -> Result<(), Fail> {
    let alloc = rt.alloc();
    let mut list: Vec<Box<dyn Prompter + Send>> = Vec::new(alloc);
    list.push(Box::new(alloc, limited(alloc, b"proto=p9sk1", 1)?)?)?;
    list.push(Box::new(alloc, limited(alloc, b"", 2)?)?)?;
    list.push(Box::new(alloc, Deny)?)?;
    let mut chain = Chain::new(list);
    check(
        &rt,
        alloc,
        &mut chain,
        &[
            (APOP, Say::Yes, 3),
            (P9SK1, Say::Yes, 2),
            (P9SK1, Say::Yes, 1),
            (P9SK1, Say::No, 1),
        ],
    )
}

#[test]
fn a_spent_one_is_gone_for_later_questions(rt: HostRuntime) -> Result<(), Fail> {
    let alloc = rt.alloc();
    let mut list: Vec<Box<dyn Prompter + Send>> = Vec::new(alloc);
    list.push(Box::new(alloc, limited(alloc, b"", 1)?)?)?;
    list.push(Box::new(alloc, Deny)?)?;
    let mut chain = Chain::new(list);
    check(
        &rt,
        alloc,
        &mut chain,
        &[
            (P9SK1, Say::Yes, 1),
            (P9SK1, Say::No, 1),
            (APOP, Say::No, 1),
        ],
    )
}
