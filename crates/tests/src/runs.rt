// How many commands whole runs take.
use cell_engine::bitwise::CellEngine;
use engine::run::run_to_end;
use engine::word::WordEngine;
use rule::fault::Fault;
use rule::pair::{AdmittedPair, admitted};
use std::test::Fail;

// How many commands the run of a pair takes on a word engine.
fn count(pair: AdmittedPair) -> Result<usize, Fault> {
    Ok(run_to_end(&mut WordEngine::new(), pair)?.commands.len())
}

// The least order that both operands fit.
fn least_order(a: i64, b: i64) -> i64 {
    let size = a.unsigned_abs().max(b.unsigned_abs());
    i64::from(64 - size.leading_zeros()).max(1)
}

// The published worst cases of each order, with the cells that were published for them.
const WORST: [(i64, i64, usize); 16] = [
    (7, 5, 6),
    (15, 13, 10),
    (17, 23, 11),
    (57, 47, 15),
    (33, 125, 18),
    (119, 213, 20),
    (319, 349, 23),
    (647, 693, 26),
    (1535, 1537, 29),
    (3847, 3829, 33),
    (6143, 6145, 35),
    (10257, 13651, 38),
    (24575, 24577, 41),
    (64229, 61519, 45),
    (98303, 98305, 47),
    (185487, 210061, 50),
];

// The published number of cells ends where a is final; two commands more bring b to 0.
#[test]
fn worst_cases_take_two_commands_more_than_their_cells(rt: HostRuntime) -> Result<(), Fail> {
    for (a, b, cells) in WORST {
        let pair = admitted(least_order(a, b), a, b)?;
        assert_eq!(rt; count(pair)?, cells.saturating_add(2));
    }
    Ok(())
}

// 3 · 2^(n-2) ± 1, the published pairs that need many cells at every order n from 3 up.
#[test]
fn near_three_quarters_of_every_order(rt: HostRuntime) -> Result<(), Fail> {
    for n in 3u8..=56 {
        let z = 3i64 << (n - 2);
        let (a, b, commands) = if n % 2 == 0 {
            (z.wrapping_add(1), z.wrapping_sub(1), 3 * usize::from(n) - 3)
        } else {
            (z.wrapping_sub(1), z.wrapping_add(1), 3 * usize::from(n) - 2)
        };
        assert_eq!(rt; count(admitted(i64::from(n), a, b)?)?, commands);
    }
    Ok(())
}

// Command by command, and in all that it ends with, a run is the same on either engine.
#[test]
fn either_engine_tells_the_same_run(rt: HostRuntime) -> Result<(), Fail> {
    for (a, b, _) in WORST {
        for (x, y) in [(a, b), (b, a.wrapping_neg()), (0, b), (a, a)] {
            let pair = admitted(least_order(a, b), x, y)?;
            let by_words = run_to_end(&mut WordEngine::new(), pair)?;
            let by_cells = run_to_end(&mut CellEngine::new(), pair)?;
            assert_eq!(rt; by_cells, by_words);
        }
    }
    Ok(())
}
