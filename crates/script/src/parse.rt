// A whole script: its calls, and what stands for each of its lines in the report.
ghost use Rattle.std.specs.Prelude.{◌≡◌, map, IfOk, OnOk};
ghost use Rattle.session.specs.Calls.{call_text};
ghost use Rattle.script.specs.Scripts.{Adds, ScriptOf, bare, call_texts};

use crate::fault::{LineError, LineFault};
use crate::line::read_line;
use session::call::Call;
use std::alloc::{AllocError, Global};

// A line of a script that is neither blank nor a comment: a call in normal form, or the line's number and what is wrong with it.
#[derive(Drop)]
pub enum Entry<'a> {
    Call(String),
    Wrong(u64, LineFault<'a>),
}

// The calls, and an entry for each of them and for each line that is no call, in the order of the lines.
// The calls are a list of their own, since a list of calls is what is performed, and that uses it up.
#[derive(Drop)]
pub struct Script<'a> {
    pub calls: Vec<Call>,
    pub entries: Vec<Entry<'a>>,
}

// A line without the carriage return that may end it.
fn without_return(line: &str) -> &str
    ensures { result.now ≡ bare line.now }
{
    line.strip_suffix('\r').unwrap_or(line)
}

impl<'a> Script<'a> {
    // Adds what a line holds, which has this number among the lines.
    fn add(&mut self, heap: Global, place: u64, line: &'a str) -> Result<(), AllocError>
        ensures { OnOk result (Adds place line.now self.old.calls.items self.old.entries.items self.new.calls.items self.new.entries.items) }
    {
        // No `?`: a line that is wrong is an entry, and only want of memory ends the reading.
        match read_line(heap, without_return(line)) {
            Ok(None) => {}
            Ok(Some(call)) => {
                self.entries.push(Entry::Call(format!(in heap; "{call}")?))?;
                self.calls.push(call)?;
            }
            Err(LineError::Wrong(fault)) => self.entries.push(Entry::Wrong(place, fault))?,
            Err(LineError::NoMemory) => return Err(AllocError),
        }
        Ok(())
    }
}

// The script of a text.
pub fn parse(heap: Global, text: &str) -> Result<Script<'_>, AllocError>
    ensures lines { IfOk result (λ s. ScriptOf text.now s.calls.items s.entries.items) }
    ensures texts { IfOk result (λ s. call_texts s.entries.items ≡ map call_text s.calls.items) }
{
    let mut script = Script {
        calls: Vec::new(heap),
        entries: Vec::new(heap),
    };
    for (index, line) in text.split('\n').enumerate() {
        script.add(heap, index as u64 + 1, line)?;
    }
    Ok(script)
}
