// One line of a script, read.
ghost use Rattle.std.specs.Prelude.{◌≡◌, ℕ, ◌≤◌, Ok, Err};
ghost use Rattle.script.specs.Arguments.{FrameIn, Makes, NumberIn, Unframed, Unmade, behind, held};
ghost use Rattle.script.specs.Lines.{ReadsLine};

use crate::argument;
use crate::argument::LARGEST_BUFFER;
use crate::fault::{LineError, LineFault};
use crate::verb::Verb;
use crate::word::first_word;
use frame::hex;
use session::call::Call;
use std::alloc::Global;

// The first two of the words behind the word of a call.
type Arguments<'a> = (Option<&'a str>, Option<&'a str>);

fn arguments(text: &str) -> Arguments<'_>
    ensures { held result ≡ behind text.now }
{
    let (first, rest) = first_word(text);
    let (second, _) = first_word(rest);
    (
        (!first.is_empty()).then_some(first),
        (!second.is_empty()).then_some(second),
    )
}

fn number<'a>(verb: Verb, arguments: Arguments<'a>) -> Result<u64, LineFault<'a>>
    ensures { elim result [ Ok n ↦ NumberIn (held arguments.entry) n | Err f ↦ (n : ℕ) → NumberIn (held arguments.entry) n → ⊥ ] }
{
    let (Some(word), None) = arguments else {
        return Err(LineFault::NotOneNumber(verb));
    };
    argument::number(word).ok_or(LineFault::NotANumber(word))
}

fn buffer_length(arguments: Arguments<'_>) -> Result<usize, LineFault<'_>>
    ensures { elim result [ Ok n ↦ NumberIn (held arguments.entry) n × (n ≤ 65536) | Err f ↦ (n : ℕ) → NumberIn (held arguments.entry) n → n ≤ 65536 → ⊥ ] }
{
    let length = number(Verb::Collect, arguments)?;
    if length > LARGEST_BUFFER {
        return Err(LineFault::BufferTooLong);
    }
    Ok(length as usize)
}

// A frame of no bytes needs no digits: any bytes may be loaded, and it is the unit that refuses them.
fn frame<'a>(heap: Global, arguments: Arguments<'a>) -> Result<Vec<u8>, LineError<'a>>
    ensures { elim result [ Ok v ↦ FrameIn (held arguments.entry) v.items | Err e ↦ Unframed (held arguments.entry) e ] }
{
    let digits = match arguments {
        (None, _) => "",
        (Some(word), None) => word,
        (Some(_), Some(_)) => return Err(LineFault::NotOneFrame.into()),
    };
    Ok(hex::bytes_of(heap, digits)?)
}

fn call<'a>(heap: Global, verb: Verb, arguments: Arguments<'a>) -> Result<Call, LineError<'a>>
    ensures { elim result [ Ok c ↦ Makes verb (held arguments.entry) c | Err e ↦ Unmade verb (held arguments.entry) e ] }
{
    match verb {
        Verb::Load => Ok(Call::Load(frame(heap, arguments)?)),
        Verb::Stint => Ok(Call::Stint(number(verb, arguments)?)),
        Verb::Work => Ok(Call::Work(number(verb, arguments)?)),
        Verb::Collect => Ok(Call::Collect(argument::buffer(heap, buffer_length(arguments)?)?)),
        Verb::Clear if arguments.0.is_none() => Ok(Call::Clear),
        Verb::Clear => Err(LineFault::NotAlone.into()),
    }
}

// The call of a line, or none where it is blank or a comment; the line is given without its line feed and carriage return.
pub fn read_line(heap: Global, line: &str) -> Result<Option<Call>, LineError<'_>>
    ensures { ReadsLine line.now result }
{
    let (word, rest) = first_word(line);
    if word.is_empty() || word.starts_with('#') {
        return Ok(None);
    }
    let verb = Verb::try_from(word)?;
    Ok(Some(call(heap, verb, arguments(rest))?))
}
