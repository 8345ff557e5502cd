// The word engine: a and b are signed 64-bit numbers. Its calls are in word/calls.rt, and the steps that it takes in word/steps.rt.
ghost use Rattle.rule.specs.Reached.{Reached};
ghost use Rattle.rule.specs.Theorems.{Narrow};
ghost use Rattle.engine.specs.Words.{state_of};

use crate::registers::Registers;
use rule::order::Order;

// A place on the run of a pair.
#[derive(Clone, Copy, PartialEq, Eq, Debug)]
struct Held {
    order: Order,
    registers: Registers,
    ghost reached: { ∥ Reached order.value (state_of registers) ∥₁ },
    ghost narrow: { Narrow 56 (state_of registers) },
}

#[derive(PartialEq, Eq, Debug, Drop)]
pub struct WordEngine {
    held: Option<Held>,
}

mod calls;
mod steps;
