// The commands of the plus-minus rule (docs/RULE.md).
ghost use Rattle.std.specs.Prelude.{◌≡◌, Some};
ghost use Rattle.rule.specs.Letters.{letters};

use std::fmt;

#[derive(Clone, Copy, PartialEq, Eq, Debug)]
pub enum Sign {
    Plus,
    Minus,
}

// What one turn of the rule does; `exchange` says that a and b first change places.
#[derive(Clone, Copy, PartialEq, Eq, Debug, Default)]
pub enum Command {
    #[default]
    Both,
    Cross,
    Shift,
    PlusMinus { sign: Sign, exchange: bool },
}

impl Command {
    // The published letters of the command.
    pub fn letters(self) -> &'static str
        ensures { result.now ≡ letters self }
    {
        match self {
            Command::Both => "B",
            Command::Cross => "C",
            Command::Shift => "S",
            Command::PlusMinus {
                sign: Sign::Plus,
                exchange: false,
            } => "P",
            Command::PlusMinus {
                sign: Sign::Minus,
                exchange: false,
            } => "M",
            Command::PlusMinus {
                sign: Sign::Plus,
                exchange: true,
            } => "XP",
            Command::PlusMinus {
                sign: Sign::Minus,
                exchange: true,
            } => "XM",
        }
    }
}

impl fmt::Display for Command {
    ghost output = { λ c. Some (letters c) };

    fn fmt<W: fmt::Write>(&self, f: &mut fmt::Formatter<W>) -> fmt::Result {
        f.pad(self.letters())
    }
}
