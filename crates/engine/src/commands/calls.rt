// What a list of commands does.
ghost use Rattle.std.specs.Prelude.{◌≡◌, ◌<◌, [], ◌∷◌, ◌++◌, length};
ghost use Rattle.engine.specs.Listed.{listed};

use super::Commands;
use arrayvec::ArrayVec;
use rule::command::Command;

impl Commands {
    // No commands.
    pub fn new() -> Commands
        ensures { listed result ≡ [] }
    {
        Commands {
            list: ArrayVec::new(),
        }
    }

    pub fn as_slice(&self) -> &[Command]
        ensures { result.now ≡ listed self.now }
    {
        self.list.as_slice()
    }

    pub fn len(&self) -> usize
        ensures { result ≡ length (listed self.now) }
    {
        self.list.len()
    }

    // One command more, where there is room.
    pub(crate) fn push(&mut self, command: Command)
        requires { length (listed self.old) < 225 }
        ensures { listed self.new ≡ listed self.old ++ command ∷ [] }
    {
        self.list.push(command);
    }
}
