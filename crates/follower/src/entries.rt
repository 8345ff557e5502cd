// The table of the cofactor follower in machine words, and the numbers that it gives. The calls are in entries/calls.rt.
ghost use Rattle.std.specs.Prelude.{◌-◌, ◌^◌};
ghost use Rattle.follower.specs.Entries.{Within};

use crate::row::Row;
use rule::order::Order;

// The pair, x and y, without the twos told so far, and the first and the second row.
#[derive(Clone, Copy, PartialEq, Eq, Debug)]
pub struct Entries {
    pub order: Order,
    pub pair: Row<i64>,
    pub first: Row<i64>,
    pub second: Row<i64>,
    ghost small_pair: { Within (2 ^ 56 - 1) pair },
    ghost small_first: { Within (2 ^ 58) first },
    ghost small_second: { Within (2 ^ 58) second },
}

// u and v.
#[derive(Clone, Copy, PartialEq, Eq, Debug)]
pub struct Cofactors {
    pub u: i64,
    pub v: i64,
}

mod calls;
