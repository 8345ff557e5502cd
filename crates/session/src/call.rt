// The calls of a unit as values, and what they answer.
ghost use Rattle.std.specs.Prelude.{Some};
ghost use Rattle.session.specs.Calls.{call_text};

use frame::hex::Hex;
use rule::fault::Fault;
use rule::pair::AdmittedPair;
use std::fmt;
use unit::unit::Worked;

// A call with its argument: a frame, a number, or the buffer that the result goes to.
#[derive(Drop, PartialEq, Eq, Debug)]
pub enum Call {
    Load(Vec<u8>),
    Stint(u64),
    Work(u64),
    Collect(Vec<u8>),
    Clear,
}

// A call in normal form: its word, a blank and its argument, which is what a line of a script has for it.
impl fmt::Display for Call {
    ghost output = { λ call. Some (call_text call) };

    fn fmt<W: fmt::Write>(&self, f: &mut fmt::Formatter<W>) -> fmt::Result {
        match self {
            Call::Load(frame) if frame.is_empty() => write!(f, "load"),
            Call::Load(frame) => write!(f, "load {}", Hex(frame.as_slice())),
            Call::Stint(most) => write!(f, "stint {most}"),
            Call::Work(budget) => write!(f, "work {budget}"),
            Call::Collect(buffer) => write!(f, "collect {}", buffer.len()),
            Call::Clear => write!(f, "clear"),
        }
    }
}

// What a call answered; a collect hands its buffer back.
#[derive(Drop, PartialEq, Eq, Debug)]
pub enum Answer {
    Loaded(Result<AdmittedPair, Fault>),
    Stinted(Result<(), Fault>),
    Worked(Result<Worked, Fault>),
    Collected(Result<usize, Fault>, Vec<u8>),
    Cleared(Result<(), Fault>),
}
