// The cell engine: it sends a and b bit by bit through one cell. Its calls are in bitwise/calls.rt, and the steps that it takes in bitwise/steps.rt.
ghost use Rattle.std.specs.Prelude.{◌≤◌};
ghost use Rattle.rule.specs.Reached.{Reached};
ghost use Rattle.cell_engine.specs.Words.{standing};

use rule::order::Order;

// A place on the run of a pair whose order is 48 at most.
#[derive(Clone, Copy, PartialEq, Eq, Debug)]
struct Held {
    order: Order,
    a: i64,
    b: i64,
    delta: i16,
    twos: u16,
    count: u16,
    ghost low: { order.value ≤ 48 },
    ghost reached: { ∥ Reached order.value (standing a b delta twos count) ∥₁ },
}

#[derive(PartialEq, Eq, Debug, Drop)]
pub struct CellEngine {
    held: Option<Held>,
}

mod calls;
mod steps;
