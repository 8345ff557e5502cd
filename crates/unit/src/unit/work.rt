// The call that works: the loop that asks any engine for commands and tells them to any followers.
ghost use Rattle.unit.specs.Calls.{Works};

use super::{Unit, Worked};
use engine::engine::Engine;
use follower::follower::Follower;
use rule::fault::{Fault, Layer, Reason};

impl<E: Engine, F: Follower> Unit<E, F> {
    // Does the lesser of the budget and the commands that are left.
    pub fn work(&mut self, budget: u64) -> Result<Worked, Fault>
        ensures { Works self.old budget result self.new }
    {
        if self.pair.is_none() {
            return Err(Reason::NothingHeld.by(Layer::Unit));
        }
        if self.engine.is_over() {
            return Err(Reason::RunOver.by(Layer::Unit));
        }
        if budget == 0 || budget > self.stint {
            return Err(Reason::BudgetOutOfRange.by(Layer::Unit));
        }
        for done in 0..budget {
            if self.engine.is_over() {
                return Ok(Worked { done, over: true });
            }
            let command = self.engine.advance()?;
            self.followers.follow(command)?;
        }
        Ok(Worked {
            done: budget,
            over: self.engine.is_over(),
        })
    }
}
