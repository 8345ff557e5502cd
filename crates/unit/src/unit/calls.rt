// The calls that load a unit, set its stint, read its result and clear it.
ghost use Rattle.std.specs.Prelude.{◌≡◌, None};
ghost use Rattle.unit.specs.Calls.{Loads, Stints, Collects, Clears};

use super::{Followers, LARGEST_STINT, NEW_STINT, Unit};
use engine::engine::Engine;
use follower::cofactor::Cofactor;
use follower::follower::Follower;
use follower::fraction::Fraction;
use follower::pair::Pair;
use frame::pair::read_pair;
use frame::result::write_result;
use reduction::readout::read_out;
use rule::fault::{Fault, Layer, Reason};
use rule::pair::AdmittedPair;

impl<E: Engine, F: Follower> Unit<E, F> {
    // An empty unit over this engine and these followers, whatever they hold.
    pub fn new(engine: E, followers: F) -> Unit<E, F>
        ensures pair { result.pair ≡ None }
        ensures stint { result.stint ≡ 64 }
    {
        Unit {
            engine,
            followers,
            stint: NEW_STINT,
            pair: None,
        }
    }

    // Takes the pair of a frame, and answers it.
    pub fn load(&mut self, frame: &[u8]) -> Result<AdmittedPair, Fault>
        ensures { Loads self.old frame.now result self.new }
    {
        if self.pair.is_some() {
            return Err(Reason::PairHeld.by(Layer::Unit));
        }
        let pair = read_pair(frame)?;
        self.engine.begin(pair)?;
        self.followers.begin(pair);
        self.pair = Some(pair);
        Ok(pair)
    }

    // Sets the most commands of one work.
    pub fn stint(&mut self, most: u64) -> Result<(), Fault>
        ensures { Stints self.old most result self.new }
    {
        if most == 0 || most > LARGEST_STINT {
            return Err(Reason::BudgetOutOfRange.by(Layer::Unit));
        }
        self.stint = most;
        Ok(())
    }

    // Empties the unit; its stint stays.
    pub fn clear(&mut self) -> Result<(), Fault>
        ensures { Clears self.old result self.new }
    {
        if self.pair.is_none() {
            return Err(Reason::NothingHeld.by(Layer::Unit));
        }
        self.pair = None;
        Ok(())
    }
}

impl<E: Engine> Unit<E, Followers> {
    // An empty unit over this engine.
    pub fn over(engine: E) -> Unit<E, Followers>
        ensures pair { result.pair ≡ None }
        ensures stint { result.stint ≡ 64 }
    {
        Unit::new(
            engine,
            Pair {
                first: Cofactor::new(),
                second: Fraction::new(),
            },
        )
    }

    // Writes the frame of the result to the front of a buffer, and answers how long it is.
    pub fn collect(&self, buffer: &mut [u8]) -> Result<usize, Fault>
        ensures { Collects self.now buffer.old result buffer.new }
    {
        let pair = self.pair.ok_or(Reason::NothingHeld.by(Layer::Unit))?;
        let result = read_out(pair, &self.engine, &self.followers);
        let reduction = result.ok_or(Reason::RunNotOver.by(Layer::Unit))?;
        write_result(&reduction, buffer)
    }
}
