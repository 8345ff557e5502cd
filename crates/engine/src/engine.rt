// What every engine is: a holder of one pair that does the commands of its run, one at a time (docs/ENGINES.md).
ghost use Rattle.std.specs.Prelude.{◌≡◌, ℕ, ◌≤◌};
ghost use Rattle.engine.specs.Meaning.{Meaning, Begins, Advances, is_idle, is_over, a_of, delta_of, twos_of, count_of};

use rule::command::Command;
use rule::fault::Fault;
use rule::pair::AdmittedPair;

pub trait Engine {
    // The largest order that this kind of engine takes.
    const LARGEST: u16;

    // What the engine holds.
    ghost meaning: { Self → Meaning };

    // The largest order, for the contracts, which cannot name the constant.
    ghost largest: { ℕ };

    // The largest order, for code that knows the engine only by its contracts.
    fn largest_order() -> u16
        ensures { result ≡ largest };

    // Sets the start of the pair's run, in place of what was held.
    fn begin(&mut self, pair: AdmittedPair) -> Result<(), Fault>
        ensures { Begins largest (meaning self.old) pair result (meaning self.new) };

    // Does one command, and tells which.
    fn advance(&mut self) -> Result<Command, Fault>
        ensures { Advances (meaning self.old) result (meaning self.new) };

    fn is_idle(&self) -> bool
        ensures { result ≡ is_idle (meaning self.now) };

    // Whether b is 0.
    fn is_over(&self) -> bool
        ensures { result ≡ is_over (meaning self.now) };

    fn a(&self) -> i64
        ensures { result ≡ a_of (meaning self.now) };

    fn delta(&self) -> i16
        ensures { result ≡ delta_of (meaning self.now) };

    fn twos(&self) -> u16
        ensures { result ≡ twos_of (meaning self.now) };

    fn count(&self) -> u16
        ensures { result ≡ count_of (meaning self.now) };

    ghost roomy: { 1 ≤ largest };
}
