// Buffers of every fit: too short by any number of bytes, exact, and much too long.
use crate::bench::Bench;
use crate::tried::{Outcome, RESULT, TOO_SHORT, Tried};
use engine::word::WordEngine;
use std::test::Fail;

// The results of the pair 5, 2 at orders where a number takes one byte, two, and eight.
static RESULTS: [(i64, &[u8]); 4] = [
    (3, RESULT),
    (7, &[0, 12, 1, 0, 7, 0, 4, 0, 0, 1, 255, 3, 5, 2]),
    (
        8,
        &[0, 17, 1, 0, 8, 0, 4, 0, 0, 0, 1, 255, 255, 0, 3, 0, 5, 0, 2],
    ),
    (
        56,
        b"\x00\x2f\x01\x00\x38\x00\x04\x00\x00\
            \x00\x00\x00\x00\x00\x00\x00\x01\
            \xff\xff\xff\xff\xff\xff\xff\xff\
            \x00\x00\x00\x00\x00\x00\x00\x03\
            \x00\x00\x00\x00\x00\x00\x00\x05\
            \x00\x00\x00\x00\x00\x00\x00\x02",
    ),
];

// A result can be collected again and again, and what does not fit is refused; what a collect leaves of the buffer is checked with its answer.
#[test]
fn buffers_of_every_length(rt: HostRuntime) -> Result<(), Fail> {
    let mut bench = Bench::over(&rt, WordEngine::new());
    for (order, result) in RESULTS {
        bench.load(order, 5, 2)?;
        bench.check(Tried::Work(64), Outcome::Worked(4, true));
        for length in 0usize..=200 {
            let outcome = if length < result.len() {
                TOO_SHORT
            } else {
                Outcome::Collected(result)
            };
            bench.check(Tried::Collect(length), outcome);
        }
        bench.check(Tried::Clear, Outcome::Done);
    }
    Ok(())
}
