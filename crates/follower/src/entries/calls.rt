// What a command does to the table of the cofactor follower, and what the table gives.
ghost use Rattle.std.specs.Prelude.{◌≡◌, ◌^◌, neg_ℤ, not, ◌&&◌, ◌*◌, nat_lt, unsigned_abs};
ghost use Rattle.rule.specs.Whole.{odd};
ghost use Rattle.follower.specs.Cofactor.{CofactorRows, CofactorRowsRelated, first_rows, halved_pair, swapped, combined, evened, halved_row, row_fits, rows_take, rows_turn};
ghost use Rattle.follower.specs.CofactorTable.{rows_of};
ghost use Rattle.follower.specs.Entries.{Within, with_second};
ghost use Rattle.follower.specs.Following.{Settled};
ghost use Rattle.follower.specs.Readout.{alike, u_of, v_of};
ghost use Rattle.follower.specs.Signs.{is_negative};
ghost use Rattle.follower.specs.Rows.{rows_follow};

use super::{Cofactors, Entries};
use crate::row::Row;
use crate::table::Table;
use rule::command::{Command, Sign};
use rule::pair::AdmittedPair;
use rule::words::exchanged;

// Whether twice the size of c is above the size of y.
fn is_far(c: i64, y: i64) -> bool
    ensures { result ≡ nat_lt (unsigned_abs y) (2 * unsigned_abs c) }
{
    y.unsigned_abs() / 2 < c.unsigned_abs()
}

// Whether c and y are both negative or both not.
fn are_alike(c: i64, y: i64) -> bool
    ensures { result ≡ alike (is_negative c) (is_negative y) }
{
    (c < 0) == (y < 0)
}

impl Entries {
    // The row y, -x, whose value is 0.
    fn null_row(self) -> Row<i64>
        ensures { result ≡ record { left = self.pair.right; right = neg_ℤ self.pair.left } }
    {
        Row {
            left: self.pair.right,
            right: -self.pair.left,
        }
    }

    // The rows change places where the mark is set.
    fn swapped(self, exchange: bool) -> Entries
        ensures { rows_of result ≡ swapped exchange (rows_of self) }
    {
        let (first, second) = exchanged(exchange, self.first, self.second);
        Entries {
            order: self.order,
            pair: self.pair,
            first,
            second,
        }
    }

    // The pair is halved.
    fn halved_pair(self) -> Entries
        ensures { rows_of result ≡ halved_pair (rows_of self) }
    {
        Entries {
            order: self.order,
            pair: self.pair.halved(),
            first: self.first,
            second: self.second,
        }
    }

    // The second row is another.
    fn with_second(self, second: Row<i64>) -> Entries
        requires { Within (2 ^ 58) second }
        ensures { rows_of result ≡ with_second second (rows_of self) }
    {
        Entries {
            order: self.order,
            pair: self.pair,
            first: self.first,
            second,
        }
    }

    // The pair halved, if it is even.
    fn halved_if_even(self) -> Option<Entries>
        ensures { Settled rows_of (not (odd self.pair.left) && not (odd self.pair.right)) (halved_pair (rows_of self)) result }
    {
        self.pair.is_even().then(|| self.halved_pair())
    }

    // A new second row made even and halved, if that can be done.
    fn settled(self, second: Row<i64>) -> Option<Entries>
        requires { Within (2 ^ 59) second }
        ensures { Settled rows_of (row_fits (evened (with_second second (rows_of self)))) (halved_row (evened (with_second second (rows_of self)))) result }
    {
        let evened = if second.is_even() {
            second
        } else {
            second.summed(Sign::Plus, self.null_row())
        };
        let halved = evened.halved();
        (evened.is_even() & halved.fits(self.order)).then(|| self.with_second(halved))
    }

    // The cofactors, if a is what the run ended with: the first row with the sign of a, moved once towards 0 if it is far from there.
    pub(crate) fn cofactors(self, a: i64) -> Cofactors
        ensures { result ≡ record { u = u_of a (rows_of self); v = v_of a (rows_of self) } }
    {
        let row = self.first.negated_by(a < 0);
        let y = self.pair.right;
        let near = if !is_far(row.left, y) {
            row
        } else if are_alike(row.left, y) {
            row.summed(Sign::Minus, self.null_row())
        } else {
            row.summed(Sign::Plus, self.null_row())
        };
        Cofactors {
            u: near.left,
            v: near.right,
        }
    }
}

impl Table for Entries {
    ghost Rows = { CofactorRows };

    ghost rows = { rows_of };

    ghost first = { first_rows };

    ghost accepts = { rows_take };

    ghost turns = { rows_turn };

    ghost relation = { CofactorRowsRelated };

    ghost follows = { rows_follow };

    fn start(pair: AdmittedPair) -> Entries {
        Entries {
            order: pair.order(),
            pair: Row {
                left: pair.a(),
                right: pair.b(),
            },
            first: Row { left: 1, right: 0 },
            second: Row { left: 0, right: 1 },
        }
    }

    fn turned(self, command: Command) -> Option<Entries> {
        match command {
            Command::Both => self.halved_if_even(),
            Command::Cross => self.swapped(true).settled(self.first),
            Command::Shift => self.settled(self.second),
            Command::PlusMinus { sign, exchange } => {
                let swapped = self.swapped(exchange);
                swapped.settled(swapped.first.summed(sign, swapped.second))
            }
        }
    }
}
