// Calls of a unit and what they should answer, as values that a table can hold.
use rule::fault::{Fault, Layer};
use rule::pair::AdmittedPair;
use std::process::Abort;
use unit::unit::Worked;

// The frame of the pair 5, 2 of order 3, and of its result after 4 commands: the divisor 1, the cofactors -1 and 3, the fraction 5/2.
pub const PAIR: &[u8] = b"\x00\x05\x01\x00\x03\x05\x02";

pub const RESULT: &[u8] = b"\x00\x0c\x01\x00\x03\x00\x04\x00\x00\x01\xff\x03\x05\x02";

// The same of the pair 12, 18 of order 5: 5 commands, of which one halved both, the divisor 6, the cofactors -1 and 1, the fraction 2/3.
pub const EVEN_PAIR: &[u8] = &[0, 5, 1, 0, 5, 12, 18];

pub const EVEN_RESULT: &[u8] = &[0, 12, 1, 0, 5, 0, 5, 0, 1, 6, 255, 1, 2, 3];

// What every buffer is filled with before a collect.
pub const FILLING: u8 = 0xAA;

// A call with its argument: a frame, a number, or how long the buffer is, up to 256.
#[derive(Clone, Copy)]
pub enum Tried {
    Load(&'static [u8]),
    Stint(u64),
    Work(u64),
    Collect(usize),
    Clear,
}

// What a call answers, as a table writes it: the order and the operands, what was done and whether the run is over, the frame in the
// buffer, or a refusal by its number, its layer and its place. The numbers are promised outside this code (docs/REFUSALS.md).
#[derive(Clone, Copy, PartialEq, Eq, Debug)]
pub enum Outcome<'a> {
    Loaded(u16, i64, i64),
    Worked(u64, bool),
    Collected(&'a [u8]),
    Done,
    Refused(u8, Layer, usize),
}

// The refusals of the unit itself.
pub const OUT_OF_RANGE: Outcome<'static> = Outcome::Refused(8, Layer::Unit, 0);

pub const TOO_SHORT: Outcome<'static> = Outcome::Refused(9, Layer::Unit, 0);

pub const HELD: Outcome<'static> = Outcome::Refused(21, Layer::Unit, 0);

pub const NOTHING: Outcome<'static> = Outcome::Refused(22, Layer::Unit, 0);

pub const NOT_OVER: Outcome<'static> = Outcome::Refused(23, Layer::Unit, 0);

pub const IS_OVER: Outcome<'static> = Outcome::Refused(24, Layer::Unit, 0);

impl From<AdmittedPair> for Outcome<'_> {
    fn from(pair: AdmittedPair) -> Self {
        Outcome::Loaded(pair.order().value(), pair.a(), pair.b())
    }
}

impl From<Worked> for Outcome<'_> {
    fn from(worked: Worked) -> Self {
        Outcome::Worked(worked.done, worked.over)
    }
}

impl<'a> From<&'a [u8]> for Outcome<'a> {
    fn from(frame: &'a [u8]) -> Self {
        Outcome::Collected(frame)
    }
}

impl From<()> for Outcome<'_> {
    fn from(_done: ()) -> Self {
        Outcome::Done
    }
}

impl From<Fault> for Outcome<'_> {
    fn from(fault: Fault) -> Self {
        Outcome::Refused(fault.reason.number(), fault.layer, fault.place)
    }
}

impl<'a> Outcome<'a> {
    // The outcome that an answer is.
    pub fn of<T: Into<Outcome<'a>>>(answer: Result<T, Fault>) -> Outcome<'a> {
        // No `map_or_else`: the checker does not cover its functions where their result names a lifetime.
        match answer {
            Ok(given) => given.into(),
            Err(fault) => fault.into(),
        }
    }

    // The outcome of a collect. Its buffer was filled before: all that is not the frame is as it was.
    pub fn of_collect(
        rt: &impl Abort,
        answer: Result<usize, Fault>,
        buffer: &'a [u8],
    ) -> Outcome<'a> {
        let (frame, rest) = buffer
            .split_at_checked(answer.unwrap_or(0))
            .expect(rt, "beyond the buffer");
        assert!(rt; rest.iter().all(|byte| *byte == FILLING));
        Outcome::of(answer.map(|_| frame))
    }
}
