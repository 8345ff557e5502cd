// Two numbers on their way through a cell, lowest bits first.
ghost use Rattle.std.specs.Prelude.{◌≡◌, ◌≤◌, ◌^◌, cond, pos};
ghost use Rattle.cell.specs.Cells.{taken};
ghost use Rattle.rule.specs.Whole.{half};
ghost use Rattle.cell_engine.specs.Passing.{plain, sent, command_in, ReadsBack};

use cell::cell::Cell;
use cell::link::Link;
use rule::command::Command;
use rule::words::{halved, is_odd};

// The cell, and what is left to send of a and b.
#[derive(Clone, Copy, PartialEq, Eq, Debug)]
pub struct Passage {
    pub cell: Cell,
    pub a: i64,
    pub b: i64,
}

// A bit at a place of a number.
fn placed(bit: bool, place: u16) -> i64
    requires { place ≤ 48 }
    ensures { result ≡ pos (cond bit (2 ^ place) 0) }
{
    if bit { 1 << place } else { 0 }
}

impl Passage {
    // Cuts off the lowest bits of what is left to send, as a link without a start mark.
    fn cut(&mut self) -> Link
        ensures link { result ≡ plain self.old.a self.old.b 0 }
        ensures passage { self.new ≡ record { cell = self.old.cell; a = half self.old.a; b = half self.old.b } }
    {
        let link = Link {
            a: is_odd(self.a),
            b: is_odd(self.b),
            ..Link::default()
        };
        self.a = halved(self.a);
        self.b = halved(self.b);
        link
    }

    // Sends the next bits, and gives the link that comes back.
    pub(crate) fn send(&mut self) -> Link
        ensures given { result ≡ (taken self.old.cell (plain self.old.a self.old.b 0)).given }
        ensures passage { self.new ≡ sent self.old }
    {
        let link = self.cut();
        self.cell.take(link)
    }

    // The command that the cell runs, if it runs one.
    pub(crate) fn command(&self) -> Option<Command>
        ensures { result ≡ command_in self.now.cell }
    {
        match self.cell {
            Cell::Running(run) => Some(run.command),
            Cell::Idle | Cell::Started(_) => None,
        }
    }

    // The two numbers that the links given from the first on stand for, where their bit at the last place is the sign.
    pub(crate) fn read(mut self, first: Link, last: u16) -> (i64, i64)
        requires { (1 ≤ last) × (last ≤ 48) }
        ensures { ReadsBack self first last result }
    {
        let mut a = i64::from(first.a);
        let mut b = i64::from(first.b);
        for place in 1..last {
            let link = self.send();
            a += placed(link.a, place);
            b += placed(link.b, place);
        }
        let signs = self.send();
        (a - placed(signs.a, last), b - placed(signs.b, last))
    }
}
