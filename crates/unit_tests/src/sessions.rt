// Lists of calls: what each call answers, on two engines, and the lists that are not performed.
use crate::bench::Bench;
use crate::tried::{
    EVEN_PAIR, EVEN_RESULT, FILLING, HELD, IS_OVER, NOT_OVER, NOTHING, OUT_OF_RANGE, Outcome, PAIR,
    RESULT, TOO_SHORT, Tried,
};
use engine::engine::Engine;
use engine::word::WordEngine;
use rule::fault::Layer;
use session::call::{Answer, Call};
use session::perform::{Unperformed, perform};
use std::alloc::{AllocError, Global};
use std::process::Abort;
use std::test::Fail;
use tests::relay::Relay;

// A list with every call and every refusal of the unit. At its end two commands of the pair 5, 2 are done.
static LIST: [(Tried, Outcome); 27] = [
    (Tried::Work(1), NOTHING),
    (Tried::Collect(14), NOTHING),
    (Tried::Clear, NOTHING),
    (
        Tried::Load(&[0, 5, 1, 0, 3, 5, 0]),
        Outcome::Refused(7, Layer::Frame, 6),
    ),
    (
        Tried::Load(&[0, 5, 1, 0, 3, 8, 0]),
        Outcome::Refused(6, Layer::Frame, 5),
    ),
    (
        Tried::Load(&[0, 5, 1]),
        Outcome::Refused(1, Layer::Frame, 3),
    ),
    (Tried::Stint(226), OUT_OF_RANGE),
    (Tried::Load(EVEN_PAIR), Outcome::Loaded(5, 12, 18)),
    (Tried::Load(PAIR), HELD),
    (Tried::Collect(14), NOT_OVER),
    (Tried::Work(65), OUT_OF_RANGE),
    (Tried::Stint(3), Outcome::Done),
    (Tried::Work(4), OUT_OF_RANGE),
    (Tried::Work(0), OUT_OF_RANGE),
    (Tried::Work(3), Outcome::Worked(3, false)),
    (Tried::Collect(14), NOT_OVER),
    (Tried::Work(3), Outcome::Worked(2, true)),
    (Tried::Work(3), IS_OVER),
    (Tried::Collect(13), TOO_SHORT),
    (Tried::Collect(14), Outcome::Collected(EVEN_RESULT)),
    (Tried::Collect(20), Outcome::Collected(EVEN_RESULT)),
    (Tried::Load(&[]), HELD),
    (Tried::Clear, Outcome::Done),
    (Tried::Clear, NOTHING),
    (Tried::Load(PAIR), Outcome::Loaded(3, 5, 2)),
    (Tried::Work(2), Outcome::Worked(2, false)),
    (Tried::Work(0), OUT_OF_RANGE),
];

// What comes after the list, on the unit itself.
static AFTER: [(Tried, Outcome); 4] = [
    (Tried::Work(4), OUT_OF_RANGE),
    (Tried::Work(3), Outcome::Worked(2, true)),
    (Tried::Collect(14), Outcome::Collected(RESULT)),
    (Tried::Clear, Outcome::Done),
];

// The call as a list holds it.
fn call_of(heap: Global, tried: Tried) -> Result<Call, AllocError> {
    Ok(match tried {
        Tried::Load(frame) => Call::Load(frame.to_vec(heap)?),
        Tried::Stint(most) => Call::Stint(most),
        Tried::Work(budget) => Call::Work(budget),
        Tried::Collect(length) => Call::Collect(vec![in heap; FILLING; length]?),
        Tried::Clear => Call::Clear,
    })
}

fn list(heap: Global) -> Result<Vec<Call>, AllocError> {
    LIST.iter()
        .map(|(tried, _)| -> Result<Call, AllocError> { call_of(heap, *tried) })
        .try_collect(heap)
}

// Room for the answers to the list.
fn room(heap: Global) -> Result<Vec<Answer>, AllocError> {
    Vec::with_capacity(heap, LIST.len())
}

impl<R: Abort + AllocGlobal, E: Engine> Bench<'_, R, E> {
    fn check_answer(&self, call: Tried, outcome: Outcome, answer: Answer) -> Result<(), Fail> {
        // An assertion in each arm: the checker does not cover a value that a match chooses from several borrows.
        match (call, answer) {
            (Tried::Load(_), Answer::Loaded(answer)) => {
                assert_eq!(self.rt; Outcome::of(answer), outcome);
            }
            (Tried::Work(_), Answer::Worked(answer)) => {
                assert_eq!(self.rt; Outcome::of(answer), outcome);
            }
            (Tried::Stint(_), Answer::Stinted(answer)) => {
                assert_eq!(self.rt; Outcome::of(answer), outcome);
            }
            (Tried::Clear, Answer::Cleared(answer)) => {
                assert_eq!(self.rt; Outcome::of(answer), outcome);
            }
            (Tried::Collect(length), Answer::Collected(answer, buffer)) => {
                assert_eq!(self.rt; buffer.len(), length);
                assert_eq!(self.rt;
                    Outcome::of_collect(self.rt, answer, buffer.as_slice()),
                    outcome
                );
            }
            _ => return Err(Fail::new("the answer of another call")),
        }
        Ok(())
    }

    // The list is performed, with one answer for each call, in their order.
    fn check_performed(&mut self) -> Result<(), Fail> {
        let heap = self.rt.alloc();
        let answers = perform(&mut self.unit, list(heap)?, room(heap)?)?;
        assert_eq!(self.rt; answers.len(), LIST.len());
        for ((call, outcome), answer) in LIST.iter().zip(answers) {
            self.check_answer(*call, *outcome, answer)?;
        }
        Ok(())
    }

    // The calls are not performed, for this reason.
    fn check_unperformed(&mut self, calls: Vec<Call>, room: Vec<Answer>, why: Unperformed) {
        assert_eq!(self.rt; perform(&mut self.unit, calls, room).err(), Some(why));
    }

    // The list on an empty unit; then no list is performed on it, and it goes on where the list left it.
    fn check_list(&mut self) -> Result<(), Fail> {
        let heap = self.rt.alloc();
        assert!(self.rt; perform(&mut self.unit, Vec::new(heap), Vec::new(heap))?.is_empty());
        self.check_unperformed(list(heap)?, Vec::new(heap), Unperformed::NoRoom);
        self.check_performed()?;
        self.check_unperformed(list(heap)?, room(heap)?, Unperformed::PairHeld);
        self.check_unperformed(Vec::new(heap), room(heap)?, Unperformed::PairHeld);
        self.check_all(&AFTER);
        Ok(())
    }
}

// A list finds the stint that the one before it left, so the units are new.
#[test]
fn lists_on_two_engines(rt: HostRuntime) -> Result<(), Fail> {
    Bench::over(&rt, WordEngine::new()).check_list()?;
    Bench::over(&rt, Relay::over(WordEngine::new())).check_list()
}
