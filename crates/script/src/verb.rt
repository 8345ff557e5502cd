// The words that name the calls of a unit.
ghost use Rattle.std.specs.Prelude.{◌≡◌, Some};
ghost use Rattle.script.specs.Verbs.{Names, spelling};

use crate::fault::LineFault;
use std::fmt;

#[derive(Clone, Copy, PartialEq, Eq, Debug)]
pub enum Verb {
    Load,
    Stint,
    Work,
    Collect,
    Clear,
}

// The call that a word names; words are in lower case.
impl<'a> TryFrom<&'a str> for Verb {
    type Error = LineFault<'a>;

    ghost try_from_gives = { Names };

    fn try_from(word: &'a str) -> Result<Verb, LineFault<'a>> {
        match word {
            "load" => Ok(Verb::Load),
            "stint" => Ok(Verb::Stint),
            "work" => Ok(Verb::Work),
            "collect" => Ok(Verb::Collect),
            "clear" => Ok(Verb::Clear),
            _ => Err(LineFault::NotACall(word)),
        }
    }
}

impl Verb {
    pub fn spelling(self) -> &'static str
        ensures { result.now ≡ spelling self }
    {
        match self {
            Verb::Load => "load",
            Verb::Stint => "stint",
            Verb::Work => "work",
            Verb::Collect => "collect",
            Verb::Clear => "clear",
        }
    }
}

impl fmt::Display for Verb {
    ghost output = { λ verb. Some (spelling verb) };

    fn fmt<W: fmt::Write>(&self, f: &mut fmt::Formatter<W>) -> fmt::Result {
        f.pad(self.spelling())
    }
}
