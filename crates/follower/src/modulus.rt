// 2^(n+2) of an order n: the entries of a table fit n + 2 bits.
ghost use Rattle.std.specs.Prelude.{◌≡◌, ◌^◌, ◌≤◌};
ghost use Rattle.follower.specs.Fraction.{modulus};

use rule::order::Order;

pub(crate) fn modulus(order: Order) -> u64
    ensures is { result ≡ modulus order.value }
    ensures fits { result ≤ 2 ^ 58 }
{
    1 << (order.value() + 2)
}
