// The reduction unit: it holds one pair at a time, and does its run in as many calls as it takes (docs/UNIT.md). The calls are in
// the files of unit/.
ghost use Rattle.std.specs.Prelude.{◌≤◌};
ghost use Rattle.unit.specs.Standing.{Placed};

use engine::engine::Engine;
use follower::follower::Follower;
use rule::pair::AdmittedPair;

// What a work answers: how many commands it did, and whether the run is over.
#[derive(Clone, Copy, PartialEq, Eq, Debug)]
pub struct Worked {
    pub done: u64,
    pub over: bool,
}

// An engine, the followers of its run, the most commands of one work, and the pair that is held, on whose run the engine and the
// followers are.
#[derive(Drop)]
pub struct Unit<E: Engine, F: Follower> {
    engine: E,
    followers: F,
    stint: u64,
    pair: Option<AdmittedPair>,
    ghost ranged: { (1 ≤ stint) × (stint ≤ 225) },
    ghost placed: { Placed F.first F.turns pair (E.meaning engine) (F.table followers) },
}

// The stint of a new unit, and the largest that can be set.
pub const NEW_STINT: u64 = 64;

pub const LARGEST_STINT: u64 = 225;

mod calls;
mod questions;
mod work;

pub use reduction::readout::Followers;
