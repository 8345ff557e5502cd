// Reduces frames: for each frame on standard input it prints the frame of the result in hexadecimal digits, or `refused` and the number.
#![tactic(auto)]

use engine::word::WordEngine;
use frame::cut::Frames;
use frame::hex::Hex;
use frame::result::LONGEST;
use session::reduce::reduce_frame;
use std::io::Read;
use unit::unit::{Followers, Unit};

// The most bytes that are read; what comes after them is not looked at.
const MOST_BYTES: u64 = 65536;

// Prints what a frame gives: the result, or the number of the refusal.
fn print(
    rt: &HostRuntime,
    unit: &mut Unit<WordEngine, Followers>,
    frame: &[u8],
) -> anyhow::Result<()> {
    let mut buffer = [0; LONGEST];
    match reduce_frame(unit, frame, &mut buffer) {
        Ok(length) => println!(rt; "{}", Hex(&buffer[..length]))?,
        Err(fault) => println!(rt; "refused {}", fault.reason.number())?,
    }
    Ok(())
}

fn run(rt: &HostRuntime) -> anyhow::Result<()> {
    let mut input = Vec::new(rt.alloc());
    rt.stdin().take(MOST_BYTES).read_to_end(&mut input)?;
    let mut unit = Unit::over(WordEngine::new());
    for frame in Frames::of(input.as_slice()) {
        print(rt, &mut unit, frame)?;
    }
    Ok(())
}

fn main(rt: HostRuntime) -> anyhow::Result<()> {
    run(&rt)
}
