// Traces one pair: `trace ORDER A B`, or `trace FRAME` with a frame in hexadecimal digits, prints its run and its reduction.
#![tactic(auto)]

mod report;

use anyhow::anyhow;
use engine::word::WordEngine;
use frame::hex;
use frame::pair::read_pair;
use reduction::reduce::reduce;
use report::Report;
use rule::fault::Fault;
use rule::pair::{AdmittedPair, admitted};
use std::env;

const USAGE: &str = "usage: trace ORDER A B, or trace FRAME";

// The whole number that a word spells.
fn number(word: &str) -> anyhow::Result<i64> {
    word.parse::<i64>().map_err(|_| anyhow!("'{word}' is not a whole number of at most 64 bits"))
}

// The reduction of the pair on a word engine.
fn reduced(pair: Result<AdmittedPair, Fault>) -> Result<Report, Fault> {
    let (run, reduction) = reduce(&mut WordEngine::new(), pair?)?;
    Ok(Report { run, reduction })
}

// Prints the reduction of a pair, or the refusal of what is none.
fn trace(rt: &HostRuntime, pair: Result<AdmittedPair, Fault>) -> anyhow::Result<()> {
    match reduced(pair) {
        Ok(report) => print!(rt; "{report}")?,
        Err(fault) => println!(rt; "{fault}")?,
    }
    Ok(())
}

fn run(rt: &HostRuntime) -> anyhow::Result<()> {
    let heap = rt.alloc();
    let mut words = env::args(rt)?.skip(1);
    match (words.next(), words.next(), words.next(), words.next()) {
        (Some(frame), None, None, None) => trace(
            rt,
            read_pair(hex::bytes_of(heap, frame.as_str())?.as_slice()),
        ),
        (Some(order), Some(a), Some(b), None) => trace(
            rt,
            admitted(
                number(order.as_str())?,
                number(a.as_str())?,
                number(b.as_str())?,
            ),
        ),
        _ => Err(anyhow!(USAGE)),
    }
}

fn main(rt: HostRuntime) -> anyhow::Result<()> {
    run(&rt)
}
