// A refusal: why, by which layer, and at which place (docs/REFUSALS.md).
ghost use Rattle.std.specs.Prelude.{◌≡◌};
ghost use Rattle.rule.specs.Refusal.{number, fault};
ghost use Rattle.rule.specs.declared.fault.Layer.TheVariants.{Frame};

use std::fmt;

#[derive(Clone, Copy, PartialEq, Eq, Debug)]
pub enum Layer {
    Frame,
    Engine,
    Follower,
    Unit,
}

#[derive(Clone, Copy, PartialEq, Eq, Debug)]
pub enum Reason {
    FrameTooShort = 1,
    LengthDiffers = 2,
    WrongVersion = 3,
    OrderOutOfRange = 4,
    OperandsDoNotFill = 5,
    OperandTooLarge = 6,
    DenominatorZero = 7,
    BudgetOutOfRange = 8,
    BufferTooShort = 9,
    PairHeld = 21,
    NothingHeld = 22,
    RunNotOver = 23,
    RunOver = 24,
    OrderAboveLargest = 25,
    CommandNotTaken = 26,
}

#[derive(Clone, Copy, PartialEq, Eq, Debug)]
pub struct Fault {
    pub reason: Reason,
    pub layer: Layer,
    // No `Option`: every refusal is told with a number, a layer and a place, which is 0 where the layer names none.
    pub place: usize,
}

impl Fault {
    pub fn new(reason: Reason, layer: Layer, place: usize) -> Fault
        ensures { result ≡ fault reason layer place }
    {
        Fault {
            reason,
            layer,
            place,
        }
    }
}

impl Layer {
    fn name(self) -> &'static str {
        match self {
            Layer::Frame => "frame",
            Layer::Engine => "engine",
            Layer::Follower => "follower",
            Layer::Unit => "unit",
        }
    }
}

impl Reason {
    // The refusal for this reason, found in a frame at a place.
    pub fn at(self, place: usize) -> Fault
        ensures { result ≡ fault self Frame place }
    {
        Fault::new(self, Layer::Frame, place)
    }

    // The refusal for this reason by a layer that names no place.
    pub fn by(self, layer: Layer) -> Fault
        ensures { result ≡ fault self layer 0 }
    {
        Fault::new(self, layer, 0)
    }

    // The number that stands for this reason in every table and on every line that a program prints.
    pub fn number(self) -> u8
        ensures { result ≡ number self }
    {
        self as u8
    }

    // Why, in a plain sentence.
    fn sentence(self) -> &'static str {
        match self {
            Reason::FrameTooShort => "the frame has fewer than 5 bytes",
            Reason::LengthDiffers => "the length does not match the bytes that follow it",
            Reason::WrongVersion => "the version is not 1",
            Reason::OrderOutOfRange => "the order is not from 1 to 56",
            Reason::OperandsDoNotFill => "the operands do not fill their bytes exactly",
            Reason::OperandTooLarge => "an operand is too large for the order",
            Reason::DenominatorZero => "b is 0",
            Reason::BudgetOutOfRange => "the stint or the budget is out of range",
            Reason::BufferTooShort => "the buffer is shorter than the frame",
            Reason::PairHeld => "a pair is held already",
            Reason::NothingHeld => "no pair is held",
            Reason::RunNotOver => "the run is not over",
            Reason::RunOver => "the run is over",
            Reason::OrderAboveLargest => "the order is above the largest that the engine takes",
            Reason::CommandNotTaken => "a follower does not take the command",
        }
    }
}

impl fmt::Display for Reason {
    fn fmt<W: fmt::Write>(&self, f: &mut fmt::Formatter<W>) -> fmt::Result {
        f.pad(self.sentence())
    }
}

impl fmt::Display for Layer {
    fn fmt<W: fmt::Write>(&self, f: &mut fmt::Formatter<W>) -> fmt::Result {
        f.pad(self.name())
    }
}

// The line that programs print: the number, the layer, the place where one is named, and the sentence.
impl fmt::Display for Fault {
    fn fmt<W: fmt::Write>(&self, f: &mut fmt::Formatter<W>) -> fmt::Result {
        let number = self.reason.number();
        let layer = self.layer;
        let place = self.place;
        let reason = self.reason;
        write!(f, "refused {number} by the {layer}")?;
        if layer == Layer::Frame || place != 0 {
            write!(f, " at place {place}")?;
        }
        write!(f, ": {reason}")
    }
}
