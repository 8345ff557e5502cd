// A row of the fraction follower's table, kept modulo 2^(n+2). The calls are in kept/calls.rt.
ghost use Rattle.follower.specs.Fraction.{modulus, Kept};

use crate::row::Row;
use rule::order::Order;

// The entries are from 0 to 2^(n+2) - 1.
#[derive(Clone, Copy, PartialEq, Eq, Debug)]
pub struct KeptRow {
    pub order: Order,
    pub entries: Row<u64>,
    ghost kept: { Kept (modulus order.value) entries },
}

mod calls;
