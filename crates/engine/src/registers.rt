// The numbers of the rule in machine words, and what a command does to them.
ghost use Rattle.std.specs.Prelude.{◌≡◌, ◌^◌, ◌<◌, unsigned_abs};
ghost use Rattle.rule.specs.Kind.{summed};
ghost use Rattle.rule.specs.Pairs.{start_of};
ghost use Rattle.rule.specs.Rule.{exchanged, combined};
ghost use Rattle.rule.specs.Theorems.{Narrow};
ghost use Rattle.rule.specs.Whole.{half, whole};
ghost use Rattle.engine.specs.Words.{state_of};

use rule::command::Sign;
use rule::pair::AdmittedPair;
use rule::words::{exchanged, halved};

#[derive(Clone, Copy, PartialEq, Eq, Debug, Default)]
pub struct Registers {
    pub a: i64,
    pub b: i64,
    pub delta: i16,
    pub twos: u16,
    pub count: u16,
}

// Half of a + b or of a - b. The followers' sum is not shared with it, since a public call may not ask that a sum fits.
fn joined(sign: Sign, a: i64, b: i64) -> i64
    requires { (unsigned_abs a < 2 ^ 56) × (unsigned_abs b < 2 ^ 56) }
    ensures { result ≡ half (summed whole sign a b) }
{
    match sign {
        Sign::Plus => halved(a + b),
        Sign::Minus => halved(a - b),
    }
}

impl Registers {
    // Where the run of a pair starts.
    pub(crate) fn start(pair: AdmittedPair) -> Registers
        ensures { state_of result ≡ start_of pair }
    {
        Registers {
            a: pair.a(),
            b: pair.b(),
            ..Registers::default()
        }
    }

    // a and b change places where the mark is set.
    pub(crate) fn exchanged(self, exchange: bool) -> Registers
        ensures { state_of result ≡ exchanged exchange (state_of self) }
    {
        let (a, b) = exchanged(exchange, self.a, self.b);
        Registers { a, b, ..self }
    }

    // b becomes half of a + b or of a - b, and δ becomes -|δ|.
    pub(crate) fn combined(self, sign: Sign) -> Registers
        requires { Narrow 56 (state_of self) }
        ensures { state_of result ≡ combined whole sign (state_of self) }
    {
        Registers {
            b: joined(sign, self.a, self.b),
            delta: -self.delta.abs(),
            count: self.count + 1,
            ..self
        }
    }
}
