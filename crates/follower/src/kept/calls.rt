// What a command does to a row of the fraction follower's table, and how its first entry is read.
ghost use Rattle.std.specs.Prelude.{◌≡◌, ◌^◌, ◌≤◌, unsigned_abs};
ghost use Rattle.follower.specs.Fraction.{modulus, sum_in, difference_in, row_after, read_signed};

use super::KeptRow;
use crate::modulus::modulus;
use crate::row::Row;
use rule::command::{Command, Sign};
use rule::order::Order;
use rule::words::exchanged;

// x + y modulo 2^(n+2).
fn sum_in(order: Order, x: u64, y: u64) -> u64
    requires { (x ≤ modulus order.value) × (y ≤ modulus order.value) }
    ensures { result ≡ sum_in (modulus order.value) x y }
{
    let modulus = modulus(order);
    (x + y) % modulus
}

// x - y modulo 2^(n+2).
fn difference_in(order: Order, x: u64, y: u64) -> u64
    requires { (x ≤ modulus order.value) × (y ≤ modulus order.value) }
    ensures { result ≡ difference_in (modulus order.value) x y }
{
    sum_in(order, x, modulus(order) - y)
}

impl KeptRow {
    // The row once a command is done.
    pub(crate) fn after(self, command: Command) -> KeptRow
        ensures order { result.order ≡ self.order }
        ensures entries { result.entries ≡ row_after (modulus self.order.value) command self.entries }
    {
        let order = self.order;
        let Row { left, right } = self.entries;
        let entries = match command {
            Command::Both => self.entries,
            Command::Cross => Row {
                left: right,
                right: sum_in(order, left, left),
            },
            Command::Shift => Row {
                left,
                right: sum_in(order, right, right),
            },
            Command::PlusMinus { sign, exchange } => {
                let (left, right) = exchanged(exchange, left, right);
                let double = sum_in(order, right, right);
                match sign {
                    Sign::Plus => Row {
                        left: difference_in(order, left, right),
                        right: double,
                    },
                    Sign::Minus => Row {
                        left: sum_in(order, left, right),
                        right: difference_in(order, 0, double),
                    },
                }
            }
        };
        KeptRow { order, entries }
    }

    // The first entry, read as a signed number of n + 2 bits.
    pub(crate) fn signed_left(self) -> i64
        ensures is { result ≡ read_signed self.order.value self.entries.left }
        ensures small { unsigned_abs result ≤ 2 ^ 58 }
    {
        let modulus = modulus(self.order);
        let entry = self.entries.left;
        if entry < modulus / 2 {
            entry as i64
        } else {
            entry as i64 - modulus as i64
        }
    }
}
