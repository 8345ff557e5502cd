// A fixed sequence of operands, scattered over all that an order admits.
ghost use Rattle.std.specs.Prelude.{◌≡◌, ◌/◌, ◌-◌, ◌^◌, pos};
ghost use Rattle.tests.specs.Scattered.{next_seed};

use rule::order::Order;

#[derive(Clone, Copy, Drop)]
pub struct Sequence {
    seed: u64,
}

impl Sequence {
    pub fn new() -> Sequence
        ensures { result.seed ≡ 2685821657736338717 }
    {
        Sequence {
            seed: 0x2545_f491_4f6c_dd1d,
        }
    }

    // The next number of the sequence, of which as many high bits are taken as the order has.
    #[tactic(auto, using(crate::proofs::HighBits::high_bits_fit))]
    pub fn operand(&mut self, order: Order) -> i64
        ensures seed { self.new.seed ≡ next_seed self.old.seed }
        ensures operand { result ≡ pos (next_seed self.old.seed / 2 ^ (64 - order.value)) }
    {
        self.seed = self
            .seed
            .wrapping_mul(6364136223846793005)
            .wrapping_add(1442695040888963407);
        (self.seed >> (64 - order.value())) as i64
    }
}
