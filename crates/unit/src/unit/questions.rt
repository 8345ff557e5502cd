// What a unit tells of itself.
ghost use Rattle.std.specs.Prelude.{◌≡◌, not, is_some};

use super::Unit;
use engine::engine::Engine;
use follower::follower::Follower;

impl<E: Engine, F: Follower> Unit<E, F> {
    // Whether no pair is held.
    pub fn is_empty(&self) -> bool
        ensures { result ≡ not (is_some self.now.pair) }
    {
        self.pair.is_none()
    }

    // The most commands of one work.
    pub fn most(&self) -> u64
        ensures { result ≡ self.now.stint }
    {
        self.stint
    }
}
