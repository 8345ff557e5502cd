// A list of commands, with room for the longest run there is. Its calls are in commands/calls.rt.
ghost use Rattle.std.specs.Prelude.{◌≤◌, length};

use arrayvec::ArrayVec;
use rule::command::Command;

#[derive(PartialEq, Eq, Debug, Drop)]
pub struct Commands {
    list: ArrayVec<Command, 225>,
    ghost few: { length list.items ≤ 225 },
}

mod calls;
