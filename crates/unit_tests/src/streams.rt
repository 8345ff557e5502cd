// Frames one behind the other, each reduced on its own by one unit.
use crate::bench::Bench;
use crate::tried::{
    EVEN_PAIR, EVEN_RESULT, FILLING, HELD, Outcome, PAIR, RESULT, TOO_SHORT, Tried,
};
use engine::engine::Engine;
use engine::word::WordEngine;
use frame::cut::Frames;
use rule::fault::Layer;
use session::reduce::reduce_frame;
use std::process::Abort;
use std::test::Fail;
use tests::relay::Relay;

impl<R: Abort, E: Engine> Bench<'_, R, E> {
    // One frame through the unit, into a buffer of so many bytes.
    fn check_reduced(&mut self, frame: &[u8], length: usize, outcome: Outcome) {
        let mut room = [FILLING; 60];
        let buffer = room.get_mut(..length).expect(self.rt, "a buffer above 60");
        let answer = reduce_frame(&mut self.unit, frame, buffer);
        assert_eq!(self.rt; Outcome::of_collect(self.rt, answer, buffer), outcome);
    }
}

impl<R: Abort + AllocGlobal, E: Engine> Bench<'_, R, E> {
    // The pieces, put one behind the other, are cut into just these pieces again, and each is reduced or refused as it should be, which
    // leaves the unit empty.
    fn check_input(&mut self, pieces: &[(&[u8], Outcome)]) -> Result<(), Fail> {
        let mut input = Vec::new(self.rt.alloc());
        for (piece, _) in pieces {
            input.extend_from_slice(piece)?;
        }
        let cut = pieces.iter().map(|(piece, _)| *piece);
        assert!(self.rt; Frames::of(input.as_slice()).eq(cut));
        for (piece, outcome) in pieces {
            self.check_reduced(piece, 60, *outcome);
            assert!(self.rt; self.unit.is_empty());
        }
        Ok(())
    }

    fn check_inputs(&mut self) -> Result<(), Fail> {
        self.check_input(&[])?;
        self.check_input(&MIXED)?;
        self.check_input(&PROMISED)?;
        self.check_input(&PROMISED_SHORT)?;
        self.check_input(&SHIFTED)
    }
}

// Good frames among refused ones, a length of 0 and a lone last byte. The results are those of marked pairs (docs/RULE.md).
static MIXED: [(&[u8], Outcome); 16] = [
    (PAIR, Outcome::Collected(RESULT)),
    (&[0, 5, 1, 0, 3, 5, 0], Outcome::Refused(7, Layer::Frame, 6)),
    (EVEN_PAIR, Outcome::Collected(EVEN_RESULT)),
    (&[0, 5, 1, 0, 3, 8, 2], Outcome::Refused(6, Layer::Frame, 5)),
    (&[0, 0], Outcome::Refused(1, Layer::Frame, 2)),
    (
        &[0, 5, 1, 0, 1, 1, 1],
        Outcome::Collected(&[0, 12, 1, 0, 1, 0, 1, 0, 0, 1, 0, 1, 1, 1]),
    ),
    (&[0, 1, 1], Outcome::Refused(1, Layer::Frame, 3)),
    (&[0, 5, 2, 0, 3, 5, 2], Outcome::Refused(3, Layer::Frame, 2)),
    (
        &[0, 5, 1, 0, 57, 5, 2],
        Outcome::Refused(4, Layer::Frame, 3),
    ),
    (
        &[0, 6, 1, 0, 3, 5, 2, 0],
        Outcome::Refused(5, Layer::Frame, 5),
    ),
    (
        &[0, 5, 1, 0, 3, 252, 6],
        Outcome::Collected(&[0, 12, 1, 0, 3, 0, 5, 0, 1, 2, 1, 1, 254, 3]),
    ),
    (&[0, 3, 1, 0, 3], Outcome::Refused(5, Layer::Frame, 5)),
    (
        &[0, 7, 1, 0, 3, 5, 2, 5, 2],
        Outcome::Refused(5, Layer::Frame, 5),
    ),
    (PAIR, Outcome::Collected(RESULT)),
    (
        &[0, 5, 1, 0, 3, 0, 6],
        Outcome::Collected(&[0, 12, 1, 0, 3, 0, 2, 0, 1, 6, 0, 1, 0, 1]),
    ),
    (&[9], Outcome::Refused(1, Layer::Frame, 1)),
];

// The last length promises more than is left, of a frame that is there and of one that is not.
static PROMISED: [(&[u8], Outcome); 2] = [
    (PAIR, Outcome::Collected(RESULT)),
    (&[0, 6, 1, 0, 3, 5, 2], Outcome::Refused(2, Layer::Frame, 0)),
];

static PROMISED_SHORT: [(&[u8], Outcome); 2] = [
    (PAIR, Outcome::Collected(RESULT)),
    (&[0, 5, 1], Outcome::Refused(1, Layer::Frame, 3)),
];

// A length that says one byte too few moves all that is behind it: the last byte of the first frame begins the next length.
static SHIFTED: [(&[u8], Outcome); 2] = [
    (&[0, 4, 1, 0, 3, 5], Outcome::Refused(5, Layer::Frame, 5)),
    (
        &[2, 0, 5, 1, 0, 3, 5, 2],
        Outcome::Refused(2, Layer::Frame, 0),
    ),
];

// With the first stint and with the least; then with a pair held, which is left alone, and with a buffer too short for the result.
#[test]
fn inputs_of_many_frames(rt: HostRuntime) -> Result<(), Fail> {
    let mut bench = Bench::over(&rt, WordEngine::new());
    bench.check_inputs()?;
    Bench::over(&rt, Relay::over(WordEngine::new())).check_inputs()?;
    bench.check(Tried::Stint(1), Outcome::Done);
    bench.check_inputs()?;
    bench.check_reduced(PAIR, 13, TOO_SHORT);
    assert!(rt; bench.unit.is_empty());
    bench.check(Tried::Load(EVEN_PAIR), Outcome::Loaded(5, 12, 18));
    bench.check_reduced(PAIR, 13, HELD);
    bench.check(Tried::Work(1), Outcome::Worked(1, false));
    bench.check_reduced(&[], 13, HELD);
    bench.check(Tried::Stint(4), Outcome::Done);
    bench.check(Tried::Work(4), Outcome::Worked(4, true));
    bench.check(Tried::Collect(14), Outcome::Collected(EVEN_RESULT));
    Ok(())
}
