// What the cell engine does.
ghost use Rattle.std.specs.Prelude.{◌≡◌};
ghost use Rattle.engine.specs.Meaning.{idle};
ghost use Rattle.cell_engine.specs.CellMeaning.{cell_meaning};
ghost use Rattle.std.proofs.Common.{rules};

use super::{CellEngine, Held};
use engine::engine::Engine;
use rule::command::Command;
use rule::fault::{Fault, Layer, Reason};
use rule::pair::AdmittedPair;

impl CellEngine {
    // An idle engine.
    pub fn new() -> CellEngine
        ensures { cell_meaning result ≡ idle }
    {
        CellEngine { held: None }
    }
}

impl Engine for CellEngine {
    const LARGEST: u16 = 48;

    ghost meaning = { cell_meaning };

    ghost largest = { 48 };

    ghost roomy = { Prim.search rules };

    fn largest_order() -> u16 {
        Self::LARGEST
    }

    fn begin(&mut self, pair: AdmittedPair) -> Result<(), Fault> {
        if pair.order().value() > Self::LARGEST {
            return Err(Reason::OrderAboveLargest.by(Layer::Engine));
        }
        self.held = Some(Held::start(pair));
        Ok(())
    }

    fn advance(&mut self) -> Result<Command, Fault> {
        let held = self.held.ok_or(Reason::NothingHeld.by(Layer::Engine))?;
        if held.b == 0 {
            return Err(Reason::RunOver.by(Layer::Engine));
        }
        let (command, next) = held.step();
        self.held = Some(next);
        Ok(command)
    }

    fn is_idle(&self) -> bool {
        self.held.is_none()
    }

    fn is_over(&self) -> bool {
        self.held.is_some_and(|held| held.b == 0)
    }

    fn a(&self) -> i64 {
        self.held.map_or(0, |held| held.a)
    }

    fn delta(&self) -> i16 {
        self.held.map_or(0, |held| held.delta)
    }

    fn twos(&self) -> u16 {
        self.held.map_or(0, |held| held.twos)
    }

    fn count(&self) -> u16 {
        self.held.map_or(0, |held| held.count)
    }
}
