// A unit at a desk: performs the calls of the script on standard input, and prints what each answered.
#![tactic(auto)]

use anyhow::anyhow;
use engine::word::WordEngine;
use script::parse::{Script, parse};
use script::report::Report;
use session::call::{Answer, Call};
use session::perform::perform;
use std::alloc::{AllocError, Global};
use std::io::Read;
use unit::unit::Unit;

// The most bytes of a script.
const LARGEST_SCRIPT: u64 = 1048576;

// The whole of standard input, which is text.
fn read(rt: &HostRuntime) -> anyhow::Result<String> {
    let mut bytes = Vec::new(rt.alloc());
    rt.stdin().take(LARGEST_SCRIPT + 1).read_to_end(&mut bytes)?;
    if bytes.len() as u64 > LARGEST_SCRIPT {
        return Err(anyhow!("a script has at most {LARGEST_SCRIPT} bytes"));
    }
    String::from_utf8(bytes).map_err(|_| anyhow!("a script is text in UTF-8"))
}

// What the calls answer, in their order, on a new unit over a word engine.
fn performed(heap: Global, calls: Vec<Call>) -> Result<Vec<Answer>, AllocError> {
    let room = Vec::with_capacity(heap, calls.len())?;
    Ok(perform(&mut Unit::over(WordEngine::new()), calls, room).unwrap())
}

fn run(rt: &HostRuntime) -> anyhow::Result<()> {
    let heap = rt.alloc();
    let text = read(rt)?;
    let Script { calls, entries } = parse(heap, text.as_str())?;
    let answers = performed(heap, calls)?;
    let report = Report { entries, answers };
    print!(rt; "{report}")?;
    Ok(())
}

fn main(rt: HostRuntime) -> anyhow::Result<()> {
    run(&rt)
}
