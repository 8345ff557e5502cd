// What the word engine does.
ghost use Rattle.std.specs.Prelude.{◌≡◌};
ghost use Rattle.engine.specs.Meaning.{idle, a_of, delta_of, twos_of, count_of};
ghost use Rattle.engine.specs.WordMeaning.{word_meaning};
ghost use Rattle.std.proofs.Common.{rules};

use super::{Held, WordEngine};
use crate::engine::Engine;
use crate::registers::Registers;
use rule::command::Command;
use rule::fault::{Fault, Layer, Reason};
use rule::order::Order;
use rule::pair::AdmittedPair;

impl WordEngine {
    // An idle engine.
    pub fn new() -> WordEngine
        ensures { word_meaning result ≡ idle }
    {
        WordEngine { held: None }
    }

    // The registers, which are 0 where nothing is held.
    fn registers(&self) -> Registers
        ensures a { result.a ≡ a_of (word_meaning self.now) }
        ensures delta { result.delta ≡ delta_of (word_meaning self.now) }
        ensures twos { result.twos ≡ twos_of (word_meaning self.now) }
        ensures count { result.count ≡ count_of (word_meaning self.now) }
    {
        self.held.map(|held| held.registers).unwrap_or_default()
    }
}

impl Engine for WordEngine {
    const LARGEST: u16 = Order::MAX;

    ghost meaning = { word_meaning };

    ghost largest = { 56 };

    ghost roomy = { Prim.search rules };

    fn largest_order() -> u16 {
        Self::LARGEST
    }

    // It takes every order that there is, and so refuses no pair.
    fn begin(&mut self, pair: AdmittedPair) -> Result<(), Fault> {
        self.held = Some(Held::start(pair));
        Ok(())
    }

    fn advance(&mut self) -> Result<Command, Fault> {
        let held = self.held.ok_or(Reason::NothingHeld.by(Layer::Engine))?;
        if held.registers.b == 0 {
            return Err(Reason::RunOver.by(Layer::Engine));
        }
        let (command, next) = held.step();
        self.held = Some(next);
        Ok(command)
    }

    fn is_idle(&self) -> bool {
        self.held.is_none()
    }

    fn is_over(&self) -> bool {
        self.held.is_some_and(|held| held.registers.b == 0)
    }

    fn a(&self) -> i64 {
        self.registers().a
    }

    fn delta(&self) -> i16 {
        self.registers().delta
    }

    fn twos(&self) -> u16 {
        self.registers().twos
    }

    fn count(&self) -> u16 {
        self.registers().count
    }
}
