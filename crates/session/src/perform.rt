// A list of calls, performed in order on an empty unit; its contract is the law over every such list (docs/UNIT.md).
ghost use Rattle.std.specs.Prelude.{vec_capacity};
ghost use Rattle.session.specs.Performs.{Happened, Performs};

use crate::call::{Answer, Call};
use engine::engine::Engine;
use unit::unit::{Followers, Unit};

// Why no call of a list was performed.
#[derive(Clone, Copy, PartialEq, Eq, Debug)]
pub enum Unperformed {
    PairHeld,
    NoRoom,
}

// One call, performed.
fn answer<E: Engine>(unit: &mut Unit<E, Followers>, call: Call) -> Answer
    ensures { Happened unit.old call result unit.new }
{
    match call {
        Call::Load(frame) => Answer::Loaded(unit.load(frame.as_slice())),
        Call::Stint(most) => Answer::Stinted(unit.stint(most)),
        Call::Work(budget) => Answer::Worked(unit.work(budget)),
        Call::Collect(mut buffer) => {
            let length = unit.collect(buffer.as_mut_slice());
            Answer::Collected(length, buffer)
        }
        Call::Clear => Answer::Cleared(unit.clear()),
    }
}

// Performs the calls in their order, and hands back what each answered, in the room that was given for it; or performs none, where the
// unit holds a pair already or there is less room than calls.
pub fn perform<E: Engine>(
    unit: &mut Unit<E, Followers>,
    calls: Vec<Call>,
    room: Vec<Answer>,
) -> Result<Vec<Answer>, Unperformed>
    ensures { Performs unit.old calls.items (vec_capacity room) result unit.new }
{
    if !unit.is_empty() {
        return Err(Unperformed::PairHeld);
    }
    if room.capacity() < calls.len() {
        return Err(Unperformed::NoRoom);
    }
    let mut answers = room;
    answers.clear();
    for call in calls {
        answers.push_reserved(answer(unit, call));
    }
    Ok(answers)
}
