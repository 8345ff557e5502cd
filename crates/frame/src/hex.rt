// Bytes to hexadecimal text and back, two digits for each byte.
ghost use Rattle.std.specs.Prelude.{◌≡◌, ◌*◌, ◌<◌, ◌≤◌, length, take, Ok, Err, Some, string_bytes};
ghost use Rattle.std.specs.Char.{digit_char};
ghost use Rattle.std.specs.Str.{IsUtf8};
ghost use Rattle.frame.specs.Hex.{Wrong, good, hex_byte, hex_digit, hex_reading, hex_text, sentence};
ghost use Rattle.frame.specs.declared.hex.HexFault.TheVariants.{NoMemory};

use std::alloc::{AllocError, AllocFailed, Global};
use std::error::Error;
use std::fmt;

// What can be wrong with hexadecimal text.
#[derive(Clone, Copy, PartialEq, Eq, Debug)]
pub enum HexFault {
    OddLength,
    NotADigit,
    NoMemory,
}

impl HexFault {
    // What is wrong, in a plain sentence.
    fn sentence(self) -> &'static str
        ensures { result.now ≡ sentence self }
    {
        match self {
            HexFault::OddLength => "a frame has two hexadecimal digits for each byte",
            HexFault::NotADigit => "a frame has only hexadecimal digits",
            HexFault::NoMemory => "no memory for the frame",
        }
    }
}

impl fmt::Display for HexFault {
    ghost output = { λ fault. Some (sentence fault) };

    fn fmt<W: fmt::Write>(&self, f: &mut fmt::Formatter<W>) -> fmt::Result {
        f.pad(self.sentence())
    }
}

impl Error for HexFault {}

// A byte that found no room.
impl<T: Drop> From<AllocFailed<T>> for HexFault {
    ghost from_gives = { λ _ fault. fault ≡ NoMemory };

    fn from(_refused: AllocFailed<T>) -> HexFault {
        HexFault::NoMemory
    }
}

// The value of a digit in either case.
fn digit(c: u8) -> Option<u8>
    ensures { result ≡ hex_digit c }
{
    char::from(c).to_digit(16).map(|value| value as u8)
}

// The byte of two digits.
fn byte(high: u8, low: u8) -> Option<u8>
    ensures { result ≡ hex_byte (hex_digit high) (hex_digit low) }
{
    Some(digit(high)? * 16 + digit(low)?)
}

// The digit of a value, in lower case.
fn digit_byte(value: u8) -> u8
    requires { value < 16 }
    ensures { result ≡ digit_char value }
{
    if value < 10 {
        b'0' + value
    } else {
        b'a' - 10 + value
    }
}

// The bytes that a text of digits stands for.
pub fn bytes_of(heap: Global, text: &str) -> Result<Vec<u8>, HexFault>
    ensures { elim result [ Ok v ↦ hex_reading text.now ≡ good v.items | Err f ↦ Wrong text.now f ] }
{
    let mut bytes = Vec::new(heap);
    for pair in text.as_bytes().chunks(2) {
        let &[high, low] = pair else {
            return Err(HexFault::OddLength);
        };
        bytes.push(byte(high, low).ok_or(HexFault::NotADigit)?)?;
    }
    Ok(bytes)
}

// The digits of at most 32 bytes, in the front of the room for them.
fn digits_of(bytes: &[u8]) -> [u8; 64]
    requires { length bytes.now ≤ 32 }
    ensures digits { take (2 * length bytes.now) result ≡ hex_text bytes.now }
    ensures text { IsUtf8 (hex_text bytes.now) }
{
    let mut digits = [0; 64];
    for (i, &byte) in bytes.iter().enumerate() {
        digits[2 * i] = digit_byte(byte / 16);
        digits[2 * i + 1] = digit_byte(byte % 16);
    }
    digits
}

// Bytes that print as their digits, in lower case.
#[derive(Clone, Copy)]
pub struct Hex<'a>(pub &'a [u8]);

impl<'a> fmt::Display for Hex<'a> {
    ghost output = { λ hex. Some (hex_text hex.0.now) };

    fn fmt<W: fmt::Write>(&self, f: &mut fmt::Formatter<W>) -> fmt::Result {
        // Many bytes at a time: with `{:02x}` for each, or digit by digit, the same text takes several times as long.
        for part in self.0.chunks(32) {
            let digits = digits_of(part);
            f.write_str(str::from_utf8(&digits[..2 * part.len()]).unwrap())?;
        }
        Ok(())
    }
}

// The text of bytes, in lower case.
pub fn text_of(heap: Global, bytes: &[u8]) -> Result<String, AllocError>
    ensures { elim result [ Ok s ↦ string_bytes s ≡ hex_text bytes.now | Err e ↦ Unit {0} ] }
{
    format!(in heap; "{}", Hex(bytes))
}
