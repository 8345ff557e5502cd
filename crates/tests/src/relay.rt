// An engine over any engine: idle until its own first begin, whatever the engine below held.
ghost use Rattle.std.specs.Prelude.{◌≡◌, true, false, MatchOption};
ghost use Rattle.tests.specs.Relays.{relayed};
ghost use Rattle.std.proofs.Common.{rules};

use engine::engine::Engine;
use rule::command::Command;
use rule::fault::{Fault, Layer, Reason};
use rule::pair::AdmittedPair;

#[derive(Drop)]
pub struct Relay<E> {
    below: E,
    // A flag, since to begin an enum of two states would have to move the engine out of a `&mut`.
    begun: bool,
}

impl<E> Relay<E> {
    pub fn over(below: E) -> Relay<E>
        ensures below { result.below ≡ below }
        ensures begun { result.begun ≡ false }
    {
        Relay {
            below,
            begun: false,
        }
    }

    // The engine below, once this one has begun.
    fn held(&self) -> Option<&E>
        ensures { MatchOption result (self.now.begun ≡ false) (λ below. (self.now.begun ≡ true) × (below.now ≡ self.now.below)) }
    {
        self.begun.then_some(&self.below)
    }
}

impl<E: Engine> Engine for Relay<E> {
    const LARGEST: u16 = E::LARGEST;

    ghost meaning = { λ s. relayed s.begun (E.Engine.meaning s.below) };

    ghost largest = { E.Engine.largest };

    ghost roomy = { Prim.search rules };

    fn largest_order() -> u16 {
        E::largest_order()
    }

    fn begin(&mut self, pair: AdmittedPair) -> Result<(), Fault> {
        self.below.begin(pair)?;
        self.begun = true;
        Ok(())
    }

    fn advance(&mut self) -> Result<Command, Fault> {
        if !self.begun {
            return Err(Reason::NothingHeld.by(Layer::Engine));
        }
        self.below.advance()
    }

    fn is_idle(&self) -> bool {
        self.held().is_none_or(|below| below.is_idle())
    }

    fn is_over(&self) -> bool {
        self.held().is_some_and(|below| below.is_over())
    }

    fn a(&self) -> i64 {
        self.held().map_or(0, |below| below.a())
    }

    fn delta(&self) -> i16 {
        self.held().map_or(0, |below| below.delta())
    }

    fn twos(&self) -> u16 {
        self.held().map_or(0, |below| below.twos())
    }

    fn count(&self) -> u16 {
        self.held().map_or(0, |below| below.count())
    }
}
