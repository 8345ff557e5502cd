// The fraction follower: at the end of a run it knows a/b in lowest terms. The calls are in fraction/calls.rt.
ghost use Rattle.std.specs.Prelude.{◌≡◌};

use crate::kept::KeptRow;
use crate::table::TableFollower;

// Its table, whose rows are of one order.
#[derive(Clone, Copy, PartialEq, Eq, Debug)]
pub struct KeptRows {
    first: KeptRow,
    second: KeptRow,
    ghost alike: { second.order ≡ first.order },
}

pub type Fraction = TableFollower<KeptRows>;

// What a table is read as; at the end of a run it is a/b in lowest terms.
#[derive(Clone, Copy, PartialEq, Eq, Debug)]
pub struct Ratio {
    pub numerator: i64,
    pub denominator: i64,
}

mod calls;
