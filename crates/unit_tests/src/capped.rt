// An engine over any engine that takes no order above 12.
ghost use Rattle.std.specs.Prelude.{◌≡◌, min};
ghost use Rattle.std.proofs.Common.{rules};

use engine::engine::Engine;
use rule::command::Command;
use rule::fault::{Fault, Layer, Reason};
use rule::pair::AdmittedPair;

// No parameter of the type, since an engine has to take at least the order 1.
const MOST: u16 = 12;

#[derive(Drop)]
pub struct Capped<E> {
    below: E,
}

impl<E> Capped<E> {
    pub fn over(below: E) -> Capped<E>
        ensures { result.below ≡ below }
    {
        Capped { below }
    }
}

impl<E: Engine> Engine for Capped<E> {
    const LARGEST: u16 = if E::LARGEST < MOST { E::LARGEST } else { MOST };

    ghost meaning = { λ s. E.Engine.meaning s.below };

    ghost largest = { min 12 E.Engine.largest };

    ghost roomy = { Prim.search rules };

    fn largest_order() -> u16 {
        E::largest_order().min(MOST)
    }

    fn begin(&mut self, pair: AdmittedPair) -> Result<(), Fault> {
        if pair.order().value() > MOST {
            return Err(Reason::OrderAboveLargest.by(Layer::Engine));
        }
        self.below.begin(pair)
    }

    fn advance(&mut self) -> Result<Command, Fault> {
        self.below.advance()
    }

    fn is_idle(&self) -> bool {
        self.below.is_idle()
    }

    fn is_over(&self) -> bool {
        self.below.is_over()
    }

    fn a(&self) -> i64 {
        self.below.a()
    }

    fn delta(&self) -> i16 {
        self.below.delta()
    }

    fn twos(&self) -> u16 {
        self.below.twos()
    }

    fn count(&self) -> u16 {
        self.below.count()
    }
}
