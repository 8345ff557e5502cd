// What can be wrong with a line of a script.
ghost use Rattle.std.specs.Prelude.{◌≡◌};
ghost use Rattle.script.specs.Faults.{of_digits};
ghost use Rattle.script.specs.declared.fault.LineError.TheVariants.{NoMemory, Wrong};

use crate::argument::LARGEST_BUFFER;
use crate::verb::Verb;
use frame::hex::HexFault;
use std::alloc::AllocError;
use std::error::Error;
use std::fmt;

// Why a line is no call; a fault of one word shows the word.
#[derive(Clone, Copy, PartialEq, Eq, Debug)]
pub enum LineFault<'a> {
    NotACall(&'a str),
    NotOneNumber(Verb),
    NotOneFrame,
    NotAlone,
    NotANumber(&'a str),
    OddDigits,
    NotADigit,
    BufferTooLong,
}

// Why nothing was read of a line: it is no call, or there is no memory for its call.
#[derive(Clone, Copy, PartialEq, Eq, Debug)]
pub enum LineError<'a> {
    Wrong(LineFault<'a>),
    NoMemory,
}

impl<'a> fmt::Display for LineError<'a> {
    fn fmt<W: fmt::Write>(&self, f: &mut fmt::Formatter<W>) -> fmt::Result {
        match *self {
            Self::Wrong(fault) => write!(f, "{fault}"),
            Self::NoMemory => write!(f, "{AllocError}"),
        }
    }
}

impl<'a> Error for LineError<'a> {}

impl<'a> From<LineFault<'a>> for LineError<'a> {
    ghost from_gives = { λ fault r. r ≡ Wrong fault };

    fn from(fault: LineFault<'a>) -> LineError<'a> {
        LineError::Wrong(fault)
    }
}

impl<'a> From<AllocError> for LineError<'a> {
    ghost from_gives = { λ _ r. r ≡ NoMemory };

    fn from(_e: AllocError) -> LineError<'a> {
        LineError::NoMemory
    }
}

impl<'a> From<HexFault> for LineError<'a> {
    ghost from_gives = { λ fault r. r ≡ of_digits fault };

    fn from(fault: HexFault) -> LineError<'a> {
        match fault {
            HexFault::OddLength => LineError::Wrong(LineFault::OddDigits),
            HexFault::NotADigit => LineError::Wrong(LineFault::NotADigit),
            HexFault::NoMemory => LineError::NoMemory,
        }
    }
}

impl<'a> fmt::Display for LineFault<'a> {
    fn fmt<W: fmt::Write>(&self, f: &mut fmt::Formatter<W>) -> fmt::Result {
        match *self {
            LineFault::NotACall(word) => {
                write!(
                    f,
                    "'{word}' is not a call; the calls are load, stint, work, collect and clear"
                )
            }
            LineFault::NotOneNumber(verb) => write!(f, "{verb} wants one number"),
            LineFault::NotOneFrame => write!(f, "load wants one frame, its digits in one word"),
            LineFault::NotAlone => write!(f, "clear takes nothing"),
            LineFault::NotANumber(word) => {
                let largest = u64::MAX;
                write!(f, "'{word}' is not a number from 0 to {largest}")
            }
            LineFault::OddDigits => write!(f, "{}", HexFault::OddLength),
            LineFault::NotADigit => write!(f, "{}", HexFault::NotADigit),
            LineFault::BufferTooLong => write!(f, "a buffer has at most {LARGEST_BUFFER} bytes"),
        }
    }
}
