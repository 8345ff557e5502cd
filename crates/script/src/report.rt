// What is printed of a script that was performed.
use crate::parse::Entry;
use frame::hex::Hex;
use session::call::Answer;
use std::fmt;
use unit::unit::Worked;

// An answer as a technician reads it: what was done, or the line of the refusal.
#[derive(Clone, Copy)]
struct Shown<'a>(&'a Answer);

// What a work did.
#[derive(Clone, Copy)]
struct ShownWork(Worked);

impl fmt::Display for ShownWork {
    fn fmt<W: fmt::Write>(&self, f: &mut fmt::Formatter<W>) -> fmt::Result {
        let Worked { done, over } = self.0;
        let commands = if done == 1 { "command" } else { "commands" };
        let end = if over { "over" } else { "not over" };
        write!(f, "{done} {commands}, {end}")
    }
}

impl<'a> fmt::Display for Shown<'a> {
    fn fmt<W: fmt::Write>(&self, f: &mut fmt::Formatter<W>) -> fmt::Result {
        match self.0 {
            Answer::Loaded(Ok(pair)) => write!(f, "the pair {pair}"),
            Answer::Stinted(Ok(())) => write!(f, "set"),
            Answer::Worked(Ok(worked)) => ShownWork(*worked).fmt(f),
            Answer::Collected(Ok(length), buffer) => {
                Hex(buffer.as_slice().get(..*length).unwrap_or(&[])).fmt(f)
            }
            Answer::Cleared(Ok(())) => write!(f, "done"),
            Answer::Loaded(Err(fault))
            | Answer::Stinted(Err(fault))
            | Answer::Worked(Err(fault))
            | Answer::Collected(Err(fault), _)
            | Answer::Cleared(Err(fault)) => write!(f, "{fault}"),
        }
    }
}

// A line for each entry of a script, with the answers of its calls in their order.
// The answers are the list that performing gave: an entry of its own for each would ask for memory once more.
#[derive(Drop)]
pub struct Report<'a> {
    pub entries: Vec<Entry<'a>>,
    pub answers: Vec<Answer>,
}

impl<'a> fmt::Display for Report<'a> {
    fn fmt<W: fmt::Write>(&self, f: &mut fmt::Formatter<W>) -> fmt::Result {
        let mut answers = self.answers.iter();
        for entry in &self.entries {
            match entry {
                Entry::Call(call) => {
                    if let Some(answer) = answers.next() {
                        writeln!(f, "{call}: {}", Shown(answer))?;
                    }
                }
                Entry::Wrong(place, fault) => writeln!(f, "line {place}: {fault}")?,
            }
        }
        Ok(())
    }
}
