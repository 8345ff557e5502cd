// An admitted pair: an order and two operands that fit it. It can hold nothing else.
ghost use Rattle.rule.specs.Admitted.{OperandsAdmitted};

use crate::order::Order;

#[derive(Clone, Copy, PartialEq, Eq, Debug)]
pub struct AdmittedPair {
    order: Order,
    a: i64,
    b: i64,
    ghost admitted: { OperandsAdmitted order.value a b },
}

mod calls;

pub use calls::admitted;
