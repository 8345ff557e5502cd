// One run cut into works in many ways, and one pair after another.
use crate::bench::Bench;
use crate::tried::{EVEN_PAIR, EVEN_RESULT, NOTHING, OUT_OF_RANGE, Outcome, PAIR, RESULT, Tried};
use engine::engine::Engine;
use engine::word::WordEngine;
use std::process::Abort;
use std::test::Fail;
use tests::relay::Relay;

// Order, a, b, and how many commands the run takes.
type Run = (i64, i64, i64, u64);

// Runs of marked pairs (docs/RULE.md), published long runs (52 and 165, as in runs.rt of the crate tests), and else runs that were counted
// by the table of the rule in numbers of any size, away from this code.
const RUNS: [Run; 7] = [
    (3, 5, 2, 4),
    (5, 12, 18, 5),
    (18, 185487, 210061, 52),
    (56, 0xff_ffff_ffff_ffff, 0x80_0000_0000_0001, 110),
    (56, 0xff_ffff_ffff_ffff, 0xff_ffff_ffff_fffe, 112),
    (56, 0xc0_0000_0000_0001, 0xbf_ffff_ffff_ffff, 165),
    (56, 0xff_ffff_ffff_ffff, -0xff_ffff_ffff_ffff, 1),
];

impl<R: Abort, E: Engine> Bench<'_, R, E> {
    // The frame of the result of a run's pair, in a buffer of zeros; the run is cut by a stint and by the budget of the work that comes
    // after so many others. The unit is empty before and after.
    fn result_of<F: Fn(u64) -> u64>(
        &mut self,
        run: Run,
        stint: u64,
        budget: F,
    ) -> Result<[u8; 49], Fail>
        requires { F.IsAlwaysCallable budget }
    {
        let (order, a, b, count) = run;
        self.unit.stint(stint)?;
        self.load(order, a, b)?;
        assert_eq!(self.rt; self.work_out(budget)?, count);
        let mut frame = [0u8; 49];
        self.unit.collect(&mut frame)?;
        assert_eq!(self.rt; u64::from(u16::from_be_bytes([frame[5], frame[6]])), count);
        self.check(Tried::Clear, Outcome::Done);
        Ok(frame)
    }

    // One work for the whole run.
    fn whole_result_of(&mut self, run: Run) -> Result<[u8; 49], Fail> {
        self.result_of(run, 225, |_| 225)
    }

    // The ways of cutting a run: one work for all; all works of one command; works of 1, 2, 3 and so on up to the stint; works of 1 to
    // 8 in no order.
    fn results_of(&mut self, run: Run) -> Result<[[u8; 49]; 4], Fail> {
        Ok([
            self.whole_result_of(run)?,
            self.result_of(run, 1, |_| 1)?,
            self.result_of(run, 13, |before| before.saturating_add(1).min(13))?,
            self.result_of(run, 8, |before| {
                (before.wrapping_mul(0x9e37_79b9_7f4a_7c15) >> 61) + 1
            })?,
        ])
    }
}

// However a run is cut, it takes as many commands and ends with the same bytes, on either engine.
#[test]
fn every_cut_of_a_run(rt: HostRuntime) -> Result<(), Fail> {
    let mut bench = Bench::over(&rt, WordEngine::new());
    let mut relayed = Bench::over(&rt, Relay::over(WordEngine::new()));
    for run in RUNS {
        let whole = bench.whole_result_of(run)?;
        assert_eq!(rt; bench.results_of(run)?, [whole; 4]);
        assert_eq!(rt; relayed.results_of(run)?, [whole; 4]);
    }
    Ok(())
}

// One unit from its first stint on: through clears in every state, stints at both ends, and pairs one after the other.
static LIFE: [(Tried, Outcome); 38] = [
    (Tried::Load(PAIR), Outcome::Loaded(3, 5, 2)),
    (Tried::Work(65), OUT_OF_RANGE),
    (Tried::Work(64), Outcome::Worked(4, true)),
    (Tried::Collect(14), Outcome::Collected(RESULT)),
    (Tried::Clear, Outcome::Done),
    (Tried::Load(EVEN_PAIR), Outcome::Loaded(5, 12, 18)),
    (Tried::Work(2), Outcome::Worked(2, false)),
    (Tried::Clear, Outcome::Done),
    (Tried::Collect(14), NOTHING),
    (Tried::Stint(3), Outcome::Done),
    (Tried::Load(PAIR), Outcome::Loaded(3, 5, 2)),
    (Tried::Clear, Outcome::Done),
    (Tried::Load(EVEN_PAIR), Outcome::Loaded(5, 12, 18)),
    (Tried::Work(4), OUT_OF_RANGE),
    (Tried::Work(3), Outcome::Worked(3, false)),
    (Tried::Work(3), Outcome::Worked(2, true)),
    (Tried::Collect(14), Outcome::Collected(EVEN_RESULT)),
    (Tried::Clear, Outcome::Done),
    (Tried::Clear, NOTHING),
    (Tried::Stint(1), Outcome::Done),
    (Tried::Load(PAIR), Outcome::Loaded(3, 5, 2)),
    (Tried::Work(2), OUT_OF_RANGE),
    (Tried::Work(1), Outcome::Worked(1, false)),
    (Tried::Stint(225), Outcome::Done),
    (Tried::Work(226), OUT_OF_RANGE),
    (Tried::Stint(2), Outcome::Done),
    (Tried::Work(3), OUT_OF_RANGE),
    (Tried::Work(2), Outcome::Worked(2, false)),
    (Tried::Stint(225), Outcome::Done),
    (Tried::Work(225), Outcome::Worked(1, true)),
    (Tried::Stint(226), OUT_OF_RANGE),
    (Tried::Collect(14), Outcome::Collected(RESULT)),
    (Tried::Clear, Outcome::Done),
    (Tried::Load(EVEN_PAIR), Outcome::Loaded(5, 12, 18)),
    (Tried::Work(225), Outcome::Worked(5, true)),
    (Tried::Collect(14), Outcome::Collected(EVEN_RESULT)),
    (Tried::Clear, Outcome::Done),
    (Tried::Work(1), NOTHING),
];

#[test]
fn one_unit_for_many_pairs(rt: HostRuntime) -> Result<(), Fail> {
    let mut bench = Bench::over(&rt, WordEngine::new());
    assert_eq!(rt; bench.unit.most(), 64);
    bench.check_all(&LIFE);
    assert_eq!(rt; bench.unit.most(), 225);
    let mut long = Bench::over(&rt, WordEngine::new());
    long.load(56, 0xc0_0000_0000_0001, 0xbf_ffff_ffff_ffff)?;
    long.check(Tried::Work(65), OUT_OF_RANGE);
    long.check(Tried::Work(64), Outcome::Worked(64, false));
    long.check(Tried::Work(64), Outcome::Worked(64, false));
    long.check(Tried::Work(64), Outcome::Worked(37, true));
    Ok(())
}
