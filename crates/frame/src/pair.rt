// The frame of a pair, read and written (docs/FRAMES.md).
ghost use Rattle.std.specs.Prelude.{◌≡◌, ◌*◌, ◌^◌, ◌<◌, ◌≤◌, length, take, drop};
ghost use Rattle.rule.specs.Admission.{width};
ghost use Rattle.frame.specs.Frames.{frame_of, pair_frame};
ghost use Rattle.frame.specs.Numbers.{signed_value};
ghost use Rattle.frame.specs.Reading.{Framed, Reads, ReadsHead};
ghost use Rattle.frame.specs.Writing.{Writes};

use crate::head::VERSION;
use crate::write::{ToFrame, write};
use crate::{head, number};
use rule::fault::{Fault, Reason};
use rule::order::Order;
use rule::pair::AdmittedPair;

// The order of a frame, or the first thing that is wrong before its operands, which are so many bytes.
fn read_head(length: u16, version: u8, order: u16, filled: usize) -> Result<Order, Fault>
    requires { filled < 2 ^ 63 }
    ensures { ReadsHead length version order filled result }
{
    if usize::from(length) != 3 + filled {
        return Err(Reason::LengthDiffers.at(0));
    }
    if version != VERSION {
        return Err(Reason::WrongVersion.at(2));
    }
    let order = Order::try_from(i64::from(order))?;
    if filled != 2 * order.width() {
        return Err(Reason::OperandsDoNotFill.at(5));
    }
    Ok(order)
}

// The two operands of an order, one behind the other.
fn read_operands(bytes: &[u8], order: Order) -> (i64, i64)
    requires { length bytes.now ≡ 2 * width order.value }
    ensures a { result.0 ≡ signed_value (take (width order.value) bytes.now) }
    ensures b { result.1 ≡ signed_value (drop (width order.value) bytes.now) }
{
    let (a, b) = bytes.split_at(order.width());
    (number::signed(a), number::signed(b))
}

// The pair that a frame holds, or the first thing that is wrong with it.
pub fn read_pair(bytes: &[u8]) -> Result<AdmittedPair, Fault>
    ensures reads { Reads bytes.now result }
    ensures unique { Framed bytes.now result }
{
    let [l0, l1, version, o0, o1, operands @ ..] = bytes else {
        return Err(Reason::FrameTooShort.at(bytes.len()));
    };
    let length = u16::from_be_bytes([*l0, *l1]);
    let order = u16::from_be_bytes([*o0, *o1]);
    let order = read_head(length, *version, order, operands.len())?;
    let (a, b) = read_operands(operands, order);
    AdmittedPair::new(order, a, b)
}

impl ToFrame for AdmittedPair {
    ghost frame = { frame_of };

    #[tactic(auto, using(crate::proofs::Writing::pair_frame_length))]
    fn frame_length(&self) -> usize {
        5 + 2 * self.order().width()
    }

    #[tactic(auto, using(crate::proofs::Writing::pair_frame_length))]
    fn put_frame(&self, part: &mut [u8]) {
        let order = self.order();
        let width = order.width();
        let (head, operands) = part.split_at_mut(5);
        let (a, b) = operands.split_at_mut(width);
        head::put_head(head, (3 + 2 * width) as u16, order);
        number::put_signed(a, self.a());
        number::put_signed(b, self.b());
    }
}

// Writes the frame of a pair to the front of a buffer, and answers how long it is.
pub fn write_pair(pair: AdmittedPair, buffer: &mut [u8]) -> Result<usize, Fault>
    ensures { Writes (pair_frame pair.order.value pair.a pair.b) buffer.old result buffer.new }
{
    write(&pair, buffer)
}
