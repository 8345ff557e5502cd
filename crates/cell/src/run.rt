// One command that is done bit by bit, lowest first.
ghost use Rattle.std.specs.Prelude.{◌≡◌};
ghost use Rattle.cell.specs.Bits.{most, carried};
ghost use Rattle.cell.specs.Runs.{fixed, first_carry, begun, plus_minus, place, bits, run_after};

use crate::link::Link;
use rule::command::{Command, Sign};

// The command, the bits of a and b that were taken last, and the carry of a plus or the borrow of a minus.
#[derive(Clone, Copy, PartialEq, Eq, Debug)]
pub struct Run {
    pub command: Command,
    pub a: bool,
    pub b: bool,
    pub carry: bool,
}

// One place of the new numbers: their bits, and the carry or borrow into the next place.
#[derive(Clone, Copy, PartialEq, Eq, Debug)]
struct Place {
    a: bool,
    b: bool,
    carry: bool,
}

// At least two of the three are set.
fn most(x: bool, y: bool, z: bool) -> bool
    ensures { result ≡ most x y z }
{
    x && y || x && z || y && z
}

// What x + y + carry carries into the next place, and what x - y - carry borrows from it.
fn carried(sign: Sign, x: bool, y: bool, carry: bool) -> bool
    ensures { result ≡ carried sign x y carry }
{
    match sign {
        Sign::Plus => most(x, y, carry),
        Sign::Minus => most(!x, y, carry),
    }
}

// The place of a plus or minus: the new a is what was kept, and the new b the sum or difference of x and y.
fn plus_minus(sign: Sign, kept: bool, x: bool, y: bool, carry: bool) -> Place
    ensures { result ≡ plus_minus sign kept x y carry }
{
    Place {
        a: kept,
        b: x ^ y ^ carry,
        carry: carried(sign, x, y, carry),
    }
}

// The command that δ and the two lowest bits of each number fix, the second of them a and b.
fn fixed(first: Link, a: bool, b: bool) -> Command
    ensures { result ≡ fixed first a b }
{
    match (first.a, first.b) {
        (false, false) => Command::Both,
        (false, true) => Command::Cross,
        (true, false) => Command::Shift,
        (true, true) => Command::PlusMinus {
            sign: if a != b { Sign::Plus } else { Sign::Minus },
            exchange: first.delta >= 0,
        },
    }
}

// A plus of two odd numbers carries out of the lowest place; a minus borrows nothing there.
fn first_carry(command: Command) -> bool
    ensures { result ≡ first_carry command }
{
    matches!(
        command,
        Command::PlusMinus {
            sign: Sign::Plus,
            ..
        }
    )
}

impl Run {
    // The run of the command that a first link and the bits after it fix, with the first link taken.
    pub(crate) fn begin(first: Link, a: bool, b: bool) -> Run
        ensures { result ≡ begun first a b }
    {
        let command = fixed(first, a, b);
        Run {
            command,
            a: first.a,
            b: first.b,
            carry: first_carry(command),
        }
    }

    // The next place of the new numbers, by the bits a and b that come.
    fn place(self, a: bool, b: bool) -> Place
        ensures { result ≡ place self.command self a b }
    {
        let Run { command, carry, .. } = self;
        match command {
            Command::Both => Place { a, b, carry },
            Command::Cross => Place {
                a: self.b,
                b: a,
                carry,
            },
            Command::Shift => Place {
                a: self.a,
                b,
                carry,
            },
            Command::PlusMinus {
                sign,
                exchange: false,
            } => plus_minus(sign, self.a, a, b, carry),
            Command::PlusMinus {
                sign,
                exchange: true,
            } => plus_minus(sign, self.b, b, a, carry),
        }
    }

    // Takes the next bits of a and b, and gives the next bits of the new numbers.
    pub(crate) fn take(&mut self, a: bool, b: bool) -> Link
        ensures given { result ≡ bits (place self.old.command self.old a b) }
        ensures run { self.new ≡ run_after self.old a b }
    {
        let place = self.place(a, b);
        self.a = a;
        self.b = b;
        self.carry = place.carry;
        Link {
            a: place.a,
            b: place.b,
            ..Link::default()
        }
    }
}
