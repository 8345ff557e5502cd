// The frame of a result, written (docs/FRAMES.md).
ghost use Rattle.frame.specs.Results.{result_frame};
ghost use Rattle.frame.specs.Writing.{Writes};

use crate::reduction::Reduction;
use crate::write::{ToFrame, write};
use crate::{head, number};
use rule::fault::Fault;

impl ToFrame for Reduction {
    ghost frame = { result_frame };

    #[tactic(auto, using(crate::proofs::Writing::result_frame_length))]
    fn frame_length(&self) -> usize {
        9 + 5 * self.order.width()
    }

    #[tactic(auto, using(crate::proofs::Writing::result_frame_length))]
    fn put_frame(&self, part: &mut [u8]) {
        let width = self.order.width();
        // Of parts that an iterator lends, as `chunks_exact_mut` does, nothing is known but their lengths.
        let (head, rest) = part.split_at_mut(5);
        let (count, rest) = rest.split_at_mut(2);
        let (twos, rest) = rest.split_at_mut(2);
        let (g, rest) = rest.split_at_mut(width);
        let (u, rest) = rest.split_at_mut(width);
        let (v, rest) = rest.split_at_mut(width);
        let (numerator, denominator) = rest.split_at_mut(width);
        head::put_head(head, (7 + 5 * width) as u16, self.order);
        count.copy_from_slice(&self.count.to_be_bytes());
        twos.copy_from_slice(&self.twos.to_be_bytes());
        number::put_signed(g, self.g as i64);
        number::put_signed(u, self.u);
        number::put_signed(v, self.v);
        number::put_signed(numerator, self.numerator);
        number::put_signed(denominator, self.denominator);
    }
}

// The longest frame of a result, that of an order with 8 bytes for each number.
pub const LONGEST: usize = 49;

// Writes the frame of a result to the front of a buffer, and answers how long it is.
pub fn write_result(reduction: &Reduction, buffer: &mut [u8]) -> Result<usize, Fault>
    ensures { Writes (result_frame reduction.now) buffer.old result buffer.new }
{
    write(reduction, buffer)
}
