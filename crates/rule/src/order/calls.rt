// The way in to an order, and what it holds.
ghost use Rattle.std.specs.Prelude.{◌≡◌};
ghost use Rattle.rule.specs.Admission.{AdmitsOrder, width};

use super::Order;
use crate::fault::{Fault, Reason};

// The order n, or the refusal of an n outside 1 to 56.
impl TryFrom<i64> for Order {
    type Error = Fault;

    ghost try_from_gives = { AdmitsOrder };

    fn try_from(n: i64) -> Result<Order, Fault> {
        if n < 1 || n > i64::from(Order::MAX) {
            return Err(Reason::OrderOutOfRange.at(3));
        }
        Ok(Order { value: n as u16 })
    }
}

impl Order {
    // The largest order of all.
    pub const MAX: u16 = 56;

    pub fn value(self) -> u16
        ensures { result ≡ self.value }
    {
        self.value
    }

    // How many bytes an operand of this order takes in a frame.
    pub fn width(self) -> usize
        ensures { result ≡ width self.value }
    {
        usize::from(self.value / 8 + 1)
    }
}
