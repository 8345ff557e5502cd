// The way in to an admitted pair, and what it holds.
ghost use Rattle.std.specs.Prelude.{◌≡◌};
ghost use Rattle.rule.specs.Admission.{Admits, AdmitsPair};

use super::AdmittedPair;
use crate::fault::{Fault, Reason};
use crate::order::Order;
use std::fmt;

impl AdmittedPair {
    // The pair a, b of this order, or the refusal of operands that it does not admit.
    pub fn new(order: Order, a: i64, b: i64) -> Result<AdmittedPair, Fault>
        ensures { AdmitsPair order a b result }
    {
        let limit = 1u64 << order.value();
        let at_b = 5 + order.width();
        if a.unsigned_abs() >= limit {
            return Err(Reason::OperandTooLarge.at(5));
        }
        if b.unsigned_abs() >= limit {
            return Err(Reason::OperandTooLarge.at(at_b));
        }
        if b == 0 {
            return Err(Reason::DenominatorZero.at(at_b));
        }
        Ok(AdmittedPair { order, a, b })
    }

    pub fn order(&self) -> Order
        ensures { result ≡ self.now.order }
    {
        self.order
    }

    pub fn a(&self) -> i64
        ensures { result ≡ self.now.a }
    {
        self.a
    }

    pub fn b(&self) -> i64
        ensures { result ≡ self.now.b }
    {
        self.b
    }
}

// The pair of an order and two operands that are plain numbers, or the refusal of the first that is not admitted.
pub fn admitted(order: i64, a: i64, b: i64) -> Result<AdmittedPair, Fault>
    ensures { Admits order a b result }
{
    AdmittedPair::new(Order::try_from(order)?, a, b)
}

// Both operands and the order, as the programs print them.
impl fmt::Display for AdmittedPair {
    fn fmt<W: fmt::Write>(&self, f: &mut fmt::Formatter<W>) -> fmt::Result {
        let AdmittedPair { order, a, b } = *self;
        let order = order.value();
        write!(f, "{a}, {b} of order {order}")
    }
}
