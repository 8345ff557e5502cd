// One frame through a unit, from load to clear.
ghost use Rattle.session.specs.Reduces.{ReducesFrame};

use engine::engine::Engine;
use rule::fault::{Fault, Layer, Reason};
use unit::unit::{Followers, Unit};

// Writes the result frame of a pair's frame to the front of a buffer, and answers how long it is. The unit is empty again
// afterwards; one that holds a pair is left alone.
pub fn reduce_frame<E: Engine>(
    unit: &mut Unit<E, Followers>,
    frame: &[u8],
    buffer: &mut [u8],
) -> Result<usize, Fault>
    ensures { ReducesFrame unit.old frame.now buffer.old result buffer.new unit.new }
{
    if !unit.is_empty() {
        return Err(Reason::PairHeld.by(Layer::Unit));
    }
    unit.load(frame)?;
    while !unit.work(unit.most())?.over {}
    let length = unit.collect(buffer);
    unit.clear()?;
    length
}
