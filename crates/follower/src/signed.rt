// Rows of signed numbers.
ghost use Rattle.std.specs.Prelude.{◌≡◌, ◌^◌, not, ◌&&◌};
ghost use Rattle.rule.specs.Kind.{summed};
ghost use Rattle.rule.specs.Whole.{odd, half, whole};
ghost use Rattle.follower.specs.Cofactor.{in_range};
ghost use Rattle.follower.specs.Entries.{Within};
ghost use Rattle.follower.specs.Signs.{negated_by};

use crate::modulus::modulus;
use crate::row::Row;
use rule::command::Sign;
use rule::order::Order;
use rule::words::{halved, is_odd};

// Whether z lies from -2^(n+2) to 2^(n+2) - 1.
fn in_range(order: Order, z: i64) -> bool
    ensures { result ≡ in_range order.value z }
{
    let limit = modulus(order) as i64;
    (-limit..limit).contains(&z)
}

impl Row<i64> {
    // Whether both entries are even.
    pub(crate) fn is_even(self) -> bool
        ensures { result ≡ (not (odd self.left) && not (odd self.right)) }
    {
        !is_odd(self.left) & !is_odd(self.right)
    }

    // Both entries are halved.
    pub(crate) fn halved(self) -> Row<i64>
        ensures { result ≡ record { left = half self.left; right = half self.right } }
    {
        Row {
            left: halved(self.left),
            right: halved(self.right),
        }
    }

    // Whether both entries are in the range of the order.
    pub(crate) fn fits(self, order: Order) -> bool
        ensures { result ≡ (in_range order.value self.left && in_range order.value self.right) }
    {
        in_range(order, self.left) & in_range(order, self.right)
    }

    // The row plus or minus another. The engine has a sum by a sign of its own: one that both call would be public, with a `requires`.
    pub(crate) fn summed(self, sign: Sign, other: Row<i64>) -> Row<i64>
        requires { Within (2 ^ 59) self × Within (2 ^ 59) other }
        ensures { result ≡ record { left = summed whole sign self.left other.left; right = summed whole sign self.right other.right } }
    {
        match sign {
            Sign::Plus => Row {
                left: self.left + other.left,
                right: self.right + other.right,
            },
            Sign::Minus => Row {
                left: self.left - other.left,
                right: self.right - other.right,
            },
        }
    }

    // The row, negated where the mark is set.
    pub(crate) fn negated_by(self, mark: bool) -> Row<i64>
        requires { Within (2 ^ 58) self }
        ensures is { result ≡ record { left = negated_by mark self.left; right = negated_by mark self.right } }
        ensures small { Within (2 ^ 58) result }
    {
        if mark {
            Row {
                left: -self.left,
                right: -self.right,
            }
        } else {
            self
        }
    }
}
