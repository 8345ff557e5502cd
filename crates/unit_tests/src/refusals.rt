// What is refused: each call in each state of a unit, numbers far out of range, frames, and orders that an engine does not take.
use crate::bench::Bench;
use crate::capped::Capped;
use crate::tried::{
    EVEN_PAIR, HELD, IS_OVER, NOT_OVER, NOTHING, OUT_OF_RANGE, Outcome, PAIR, RESULT, TOO_SHORT,
    Tried,
};
use engine::engine::Engine;
use engine::word::WordEngine;
use rule::fault::Layer;
use std::process::Abort;
use tests::relay::Relay;

// A state of a unit: the calls that bring a new unit there, and the calls that go on from there to the result.
struct State {
    before: &'static [(Tried, Outcome<'static>)],
    after: &'static [(Tried, Outcome<'static>)],
}

const LOAD: (Tried, Outcome<'static>) = (Tried::Load(PAIR), Outcome::Loaded(3, 5, 2));

const COLLECT: (Tried, Outcome<'static>) = (Tried::Collect(14), Outcome::Collected(RESULT));

// A unit with nothing, or with the pair 5, 2 and none, two or all four of its commands done.
static STATES: [State; 4] = [
    State {
        before: &[],
        after: &[
            (Tried::Collect(14), NOTHING),
            LOAD,
            (Tried::Work(64), Outcome::Worked(4, true)),
            COLLECT,
        ],
    },
    State {
        before: &[LOAD],
        after: &[
            (Tried::Collect(14), NOT_OVER),
            (Tried::Work(64), Outcome::Worked(4, true)),
            COLLECT,
        ],
    },
    State {
        before: &[LOAD, (Tried::Work(2), Outcome::Worked(2, false))],
        after: &[
            (Tried::Collect(14), NOT_OVER),
            (Tried::Work(64), Outcome::Worked(2, true)),
            COLLECT,
        ],
    },
    State {
        before: &[LOAD, (Tried::Work(4), Outcome::Worked(4, true))],
        after: &[(Tried::Work(64), IS_OVER), COLLECT],
    },
];

impl State {
    // A unit in this state answers so, and where it refuses it is as it was, with the stint of a new one.
    fn check(&self, rt: &impl Abort, call: Tried, outcome: Outcome) {
        let mut bench = Bench::over(rt, WordEngine::new());
        bench.check_all(self.before);
        bench.check(call, outcome);
        if matches!(outcome, Outcome::Refused(..)) {
            assert_eq!(rt; bench.unit.most(), 64);
            bench.check_all(self.after);
        }
    }
}

// What one call answers to a unit that is empty, loaded, in the middle, and over.
type Outcomes = [Outcome<'static>; 4];

fn check_in_every_state(rt: &impl Abort, call: Tried, outcomes: &Outcomes) {
    for (state, outcome) in STATES.iter().zip(outcomes) {
        state.check(rt, call, *outcome);
    }
}

// Calls, each with what it answers in each state.
static CALLS: [(Tried, &Outcomes); 17] = [
    (
        Tried::Load(PAIR),
        &[Outcome::Loaded(3, 5, 2), HELD, HELD, HELD],
    ),
    (
        Tried::Load(EVEN_PAIR),
        &[Outcome::Loaded(5, 12, 18), HELD, HELD, HELD],
    ),
    (
        Tried::Load(&[]),
        &[Outcome::Refused(1, Layer::Frame, 0), HELD, HELD, HELD],
    ),
    (Tried::Stint(1), &[Outcome::Done; 4]),
    (Tried::Stint(225), &[Outcome::Done; 4]),
    (
        Tried::Work(1),
        &[
            NOTHING,
            Outcome::Worked(1, false),
            Outcome::Worked(1, false),
            IS_OVER,
        ],
    ),
    (
        Tried::Work(2),
        &[
            NOTHING,
            Outcome::Worked(2, false),
            Outcome::Worked(2, true),
            IS_OVER,
        ],
    ),
    (
        Tried::Work(3),
        &[
            NOTHING,
            Outcome::Worked(3, false),
            Outcome::Worked(2, true),
            IS_OVER,
        ],
    ),
    (
        Tried::Work(64),
        &[
            NOTHING,
            Outcome::Worked(4, true),
            Outcome::Worked(2, true),
            IS_OVER,
        ],
    ),
    (
        Tried::Work(65),
        &[NOTHING, OUT_OF_RANGE, OUT_OF_RANGE, IS_OVER],
    ),
    (
        Tried::Work(225),
        &[NOTHING, OUT_OF_RANGE, OUT_OF_RANGE, IS_OVER],
    ),
    (Tried::Collect(0), &[NOTHING, NOT_OVER, NOT_OVER, TOO_SHORT]),
    (Tried::Collect(1), &[NOTHING, NOT_OVER, NOT_OVER, TOO_SHORT]),
    (
        Tried::Collect(13),
        &[NOTHING, NOT_OVER, NOT_OVER, TOO_SHORT],
    ),
    (
        Tried::Collect(14),
        &[NOTHING, NOT_OVER, NOT_OVER, Outcome::Collected(RESULT)],
    ),
    (
        Tried::Collect(256),
        &[NOTHING, NOT_OVER, NOT_OVER, Outcome::Collected(RESULT)],
    ),
    (
        Tried::Clear,
        &[NOTHING, Outcome::Done, Outcome::Done, Outcome::Done],
    ),
];

// Numbers that are neither a stint nor a budget; cut to 8, 16 or 32 bits, or taken as signed, many would be.
const FAR: [u64; 16] = [
    0,
    226,
    255,
    256,
    257,
    320,
    65535,
    65536,
    65537,
    0xffff_ffff,
    0x1_0000_0000,
    0x1_0000_0001,
    0x1_0000_0040,
    0x8000_0000_0000_0001,
    0xffff_ffff_ffff_ff01,
    u64::MAX,
];

#[test]
fn every_call_in_every_state(rt: HostRuntime) {
    for (call, outcomes) in &CALLS {
        check_in_every_state(&rt, *call, outcomes);
    }
    for far in FAR {
        check_in_every_state(&rt, Tried::Stint(far), &[OUT_OF_RANGE; 4]);
        check_in_every_state(
            &rt,
            Tried::Work(far),
            &[NOTHING, OUT_OF_RANGE, OUT_OF_RANGE, IS_OVER],
        );
    }
}

// Frames, with the number of the refusal and the place. Order 13 has two bytes for each operand, order 56 has eight. In most of them
// something further on is wrong too, or the order is above 12.
const FRAMES: [(&[u8], u8, usize); 24] = [
    (&[], 1, 0),
    (&[7], 1, 1),
    (&[0, 0], 1, 2),
    (&[0, 7, 2, 0], 1, 4),
    (&[0, 6, 2, 0, 13, 0, 5, 0, 2], 2, 0),
    (&[0, 8, 1, 0, 13, 0, 5, 0, 2], 2, 0),
    (&[1, 7, 1, 0, 13, 0, 5, 0, 2], 2, 0),
    (&[0, 7, 0, 0, 13, 0, 5, 0, 2], 3, 2),
    (&[0, 7, 2, 0, 57, 0, 5, 0, 2], 3, 2),
    (&[0, 7, 1, 0, 0, 0, 5, 0, 2], 4, 3),
    (&[0, 7, 1, 0, 57, 0, 5, 0, 2], 4, 3),
    (&[0, 7, 1, 1, 13, 0, 5, 0, 2], 4, 3),
    (&[0, 3, 1, 0, 13], 5, 5),
    (&[0, 6, 1, 0, 13, 32, 0, 0], 5, 5),
    (&[0, 8, 1, 0, 13, 32, 0, 0, 0, 0], 5, 5),
    (&[0, 5, 1, 0, 13, 5, 2], 5, 5),
    (&[0, 7, 1, 0, 13, 32, 0, 0, 0], 6, 5),
    (&[0, 7, 1, 0, 13, 224, 0, 32, 0], 6, 5),
    (&[0, 7, 1, 0, 13, 31, 255, 32, 0], 6, 7),
    (&[0, 7, 1, 0, 13, 224, 1, 224, 0], 6, 7),
    (&[0, 7, 1, 0, 13, 31, 255, 0, 0], 7, 7),
    (
        b"\x00\x13\x01\x00\x38\x01\0\0\0\0\0\0\0\0\0\0\0\0\0\0\0",
        6,
        5,
    ),
    (
        b"\x00\x13\x01\x00\x38\0\0\0\0\0\0\0\x05\xff\0\0\0\0\0\0\0",
        6,
        13,
    ),
    (
        b"\x00\x13\x01\x00\x38\0\0\0\0\0\0\0\x05\0\0\0\0\0\0\0\0",
        7,
        13,
    ),
];

impl<R: Abort, E: Engine> Bench<'_, R, E> {
    // An empty unit refuses each of the frames for what is wrong with it, and stays empty; one that holds a pair does not look at them.
    fn check_frames(&mut self) {
        for (frame, number, place) in FRAMES {
            self.check(
                Tried::Load(frame),
                Outcome::Refused(number, Layer::Frame, place),
            );
            assert!(self.rt; self.unit.is_empty());
        }
        self.check(Tried::Load(PAIR), Outcome::Loaded(3, 5, 2));
        for (frame, _, _) in FRAMES {
            self.check(Tried::Load(frame), HELD);
        }
        self.check(Tried::Work(64), Outcome::Worked(4, true));
        self.check(Tried::Collect(14), Outcome::Collected(RESULT));
        self.check(Tried::Clear, Outcome::Done);
    }
}

#[test]
fn frames_through_load(rt: HostRuntime) {
    Bench::over(&rt, WordEngine::new()).check_frames();
    Bench::over(&rt, Relay::over(WordEngine::new())).check_frames();
    Bench::over(&rt, Capped::over(WordEngine::new())).check_frames();
}

const ABOVE: Outcome<'static> = Outcome::Refused(25, Layer::Engine, 0);

// The pair 5, 2 of order 12 and the frame of its result, and of the orders 13 and 56.
const TWELVE: &[u8] = &[0, 7, 1, 0, 12, 0, 5, 0, 2];

const TWELVE_RESULT: &[u8] =
    b"\x00\x11\x01\x00\x0c\x00\x04\x00\x00\x00\x01\xff\xff\x00\x03\x00\x05\x00\x02";

const THIRTEEN: &[u8] = &[0, 7, 1, 0, 13, 0, 5, 0, 2];

const FIFTY_SIX: &[u8] = b"\x00\x13\x01\x00\x38\0\0\0\0\0\0\0\x05\0\0\0\0\0\0\0\x02";

// An engine that takes orders up to 12: order 13 leaves the unit empty, and the next pair is taken.
static CAPPED: [(Tried, Outcome); 22] = [
    (Tried::Load(THIRTEEN), ABOVE),
    (Tried::Work(1), NOTHING),
    (Tried::Collect(19), NOTHING),
    (Tried::Clear, NOTHING),
    (Tried::Load(FIFTY_SIX), ABOVE),
    (Tried::Load(TWELVE), Outcome::Loaded(12, 5, 2)),
    (Tried::Load(THIRTEEN), HELD),
    (Tried::Work(3), Outcome::Worked(3, false)),
    (Tried::Load(FIFTY_SIX), HELD),
    (Tried::Work(64), Outcome::Worked(1, true)),
    (Tried::Load(THIRTEEN), HELD),
    (Tried::Collect(19), Outcome::Collected(TWELVE_RESULT)),
    (Tried::Clear, Outcome::Done),
    (Tried::Load(THIRTEEN), ABOVE),
    (Tried::Work(0), NOTHING),
    (Tried::Collect(19), NOTHING),
    (Tried::Clear, NOTHING),
    (Tried::Load(PAIR), Outcome::Loaded(3, 5, 2)),
    (Tried::Work(64), Outcome::Worked(4, true)),
    (Tried::Collect(14), Outcome::Collected(RESULT)),
    (Tried::Clear, Outcome::Done),
    (
        Tried::Load(&[0, 7, 1, 0, 13, 32, 0, 0, 2]),
        Outcome::Refused(6, Layer::Frame, 5),
    ),
];

#[test]
fn orders_above_the_engines_largest(rt: HostRuntime) {
    Bench::over(&rt, Capped::over(WordEngine::new())).check_all(&CAPPED);
    Bench::over(&rt, Relay::over(Capped::over(WordEngine::new()))).check_all(&CAPPED);
    Bench::over(&rt, Capped::over(Relay::over(WordEngine::new()))).check_all(&CAPPED);
}
