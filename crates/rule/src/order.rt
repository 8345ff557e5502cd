// The order of a pair: a number from 1 to 56.
ghost use Rattle.rule.specs.Admitted.{OrderAdmitted};

#[derive(Clone, Copy, PartialEq, Eq, Debug)]
pub struct Order {
    value: u16,
    ghost admitted: { OrderAdmitted value },
}

mod calls;
