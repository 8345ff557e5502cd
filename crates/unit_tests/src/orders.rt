// Every order through a unit, from the frame of a pair to the frame of its result, against Euclid.
use crate::bench::Bench;
use crate::tried::{Outcome, Tried};
use engine::engine::Engine;
use engine::word::WordEngine;
use frame::result::LONGEST;
use rule::order::Order;
use std::process::Abort;
use std::test::Fail;
use tests::euclid::euclid;
use tests::sequence::Sequence;

// The number in two's complement that these bytes are, the most significant first.
fn signed(bytes: &[u8]) -> i128 {
    let sign = match bytes {
        [128..=255, ..] => -1i128,
        _ => 0,
    };
    bytes.iter().fold(sign, |value, byte| {
        value.wrapping_mul(256).wrapping_add(i128::from(*byte))
    })
}

impl<R: Abort + AllocGlobal, E: Engine> Bench<'_, R, E> {
    // The head of a result frame: its length and version, the order, the count, and as many twos as the divisor has. Behind it stand five
    // numbers, which are those of the pair a, b, in wide numbers.
    // The crate tests holds such numbers to Euclid too: a check that both share would have to end a test, and only a test may do that.
    fn check_frame(&self, frame: &[u8], order: u8, a: i64, b: i64, count: u64) -> Result<(), Fail> {
        let rt = self.rt;
        let [l0, l1, version, o0, o1, c0, c1, t0, t1, numbers @ ..] = frame else {
            return Err(Fail::new("the frame is too short"));
        };
        let divisor = euclid(a, b);
        let width = usize::from(order / 8) + 1;
        assert_eq!(rt; numbers.len(), 5 * width);
        assert_eq!(rt; usize::from(u16::from_be_bytes([*l0, *l1])), 5 * width + 7);
        assert_eq!(rt; *version, 1);
        assert_eq!(rt; u16::from_be_bytes([*o0, *o1]), u16::from(order));
        assert_eq!(rt; u64::from(u16::from_be_bytes([*c0, *c1])), count);
        assert!(rt; count >= 1 && count <= 4 * u64::from(order) + 1);
        assert_eq!(rt;
            u32::from(u16::from_be_bytes([*t0, *t1])),
            divisor.trailing_zeros()
        );
        let numbers: Vec<i128> = numbers.chunks_exact(width).map(signed).collect(rt.alloc())?;
        let [g, u, v, numerator, denominator] = numbers.as_slice() else {
            return Err(Fail::new("not five numbers"));
        };
        let (a, b) = (i128::from(a), i128::from(b));
        assert_eq!(rt; *g, i128::from(divisor));
        assert_eq!(rt; u.wrapping_mul(a).wrapping_add(v.wrapping_mul(b)), *g);
        assert_eq!(rt; numerator.wrapping_mul(b), denominator.wrapping_mul(a));
        assert!(rt; *denominator > 0);
        assert_eq!(rt;
            euclid(i64::try_from(*numerator)?, i64::try_from(*denominator)?),
            1
        );
        Ok(())
    }

    // The pair a, b of this order through the unit, which is empty before and after.
    fn check_pair(&mut self, order: u8, a: i64, b: i64) -> Result<(), Fail> {
        self.load(i64::from(order), a, b)?;
        let most = self.unit.most();
        let count = self.work_out(|_| most)?;
        let mut buffer = [0u8; 49];
        let length = self.unit.collect(&mut buffer)?;
        let frame = buffer.get(..length).ok_or("beyond the buffer")?;
        self.check_frame(frame, order, a, b, count)?;
        self.check(Tried::Clear, Outcome::Done);
        Ok(())
    }
}

// At each order n, operands at its edges and from a fixed sequence. The stint is 4n + 1, which does a run in one work, and at last n.
// The longest result, that of order 56, fills its buffer of 49 bytes.
#[test]
fn every_order_against_euclid(rt: HostRuntime) -> Result<(), Fail> {
    assert_eq!(rt; LONGEST, 49);
    let mut bench = Bench::over(&rt, WordEngine::new());
    let mut sequence = Sequence::new();
    for n in 1u8..=56 {
        let order = Order::try_from(i64::from(n))?;
        assert_eq!(rt; order.value(), u16::from(n));
        bench.unit.stint(4 * u64::from(n) + 1)?;
        let top = 1i64 << n;
        let most = top.wrapping_sub(1);
        let least = most.wrapping_neg();
        let a = sequence.operand(order);
        let b = sequence.operand(order).max(1);
        for (x, y) in [
            (0, least),
            (1, most),
            (most, most),
            (most, least),
            (least, most / 2 + 1),
            (top / 2, least),
            (most.wrapping_sub(1), most),
            (most / 3, most / 5 + 1),
            (a, b),
            (a.wrapping_neg(), b),
            (b, a.wrapping_neg().min(-1)),
        ] {
            bench.check_pair(n, x, y)?;
        }
        bench.unit.stint(u64::from(n))?;
        bench.check_pair(n, a, b)?;
    }
    Ok(())
}
