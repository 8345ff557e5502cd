// What the reduction of a pair gives; each of its numbers fits the bytes that its order gives it.
ghost use Rattle.frame.specs.Fits.{Fit};

use rule::order::Order;

#[derive(Clone, Copy, PartialEq, Eq, Debug)]
pub struct Reduction {
    pub order: Order,
    pub count: u16,
    pub twos: u16,
    pub g: u64,
    pub u: i64,
    pub v: i64,
    pub numerator: i64,
    pub denominator: i64,
    ghost fit: { Fit order.value g u v numerator denominator },
}
