// Which orders and pairs are admitted, and how the others are refused.
use crate::refused::check_refused;
use rule::fault::{Fault, Layer, Reason};
use rule::order::Order;
use rule::pair::admitted;
use std::test::Fail;

#[test]
fn orders_from_1_to_56(rt: HostRuntime) -> Result<(), Fail> {
    for n in 1u8..=56 {
        let order = Order::try_from(i64::from(n))?;
        assert_eq!(rt; order.value(), u16::from(n));
    }
    for n in [0, 57, 58, 65536, -1, i64::MAX, i64::MIN] {
        check_refused(&rt, admitted(n, 0, 1), 4, Layer::Frame, 3);
    }
    Ok(())
}

// The largest operands of each order, and the first that are too large; b begins k bytes after a.
#[test]
fn operands_below_two_to_the_order(rt: HostRuntime) -> Result<(), Fail> {
    for n in 1u8..=56 {
        let order = i64::from(n);
        let top = 1i64 << n;
        let most = top.wrapping_sub(1);
        let least = most.wrapping_neg();
        let second = 6 + usize::from(n / 8);
        for (a, b) in [(most, most), (least, 1), (0, least)] {
            let pair = admitted(order, a, b)?;
            assert_eq!(rt;
                (pair.order().value(), pair.a(), pair.b()),
                (u16::from(n), a, b)
            );
        }
        for large in [top, top.wrapping_neg(), i64::MAX, i64::MIN] {
            check_refused(&rt, admitted(order, large, 1), 6, Layer::Frame, 5);
            check_refused(&rt, admitted(order, 1, large), 6, Layer::Frame, second);
            check_refused(&rt, admitted(order, large, 0), 6, Layer::Frame, 5);
        }
        check_refused(&rt, admitted(order, 1, 0), 7, Layer::Frame, second);
    }
    Ok(())
}

// Every reason by its number and in words, each as some layer would find it.
const REFUSALS: [(Reason, Layer, usize, &str); 15] = [
    (
        Reason::FrameTooShort,
        Layer::Frame,
        0,
        "refused 1 by the frame at place 0: the frame has fewer than 5 bytes",
    ),
    (
        Reason::LengthDiffers,
        Layer::Frame,
        0,
        "refused 2 by the frame at place 0: the length does not match the bytes that follow it",
    ),
    (
        Reason::WrongVersion,
        Layer::Frame,
        2,
        "refused 3 by the frame at place 2: the version is not 1",
    ),
    (
        Reason::OrderOutOfRange,
        Layer::Frame,
        3,
        "refused 4 by the frame at place 3: the order is not from 1 to 56",
    ),
    (
        Reason::OperandsDoNotFill,
        Layer::Frame,
        5,
        "refused 5 by the frame at place 5: the operands do not fill their bytes exactly",
    ),
    (
        Reason::OperandTooLarge,
        Layer::Frame,
        6,
        "refused 6 by the frame at place 6: an operand is too large for the order",
    ),
    (
        Reason::DenominatorZero,
        Layer::Frame,
        6,
        "refused 7 by the frame at place 6: b is 0",
    ),
    (
        Reason::BudgetOutOfRange,
        Layer::Unit,
        0,
        "refused 8 by the unit: the stint or the budget is out of range",
    ),
    (
        Reason::BufferTooShort,
        Layer::Unit,
        0,
        "refused 9 by the unit: the buffer is shorter than the frame",
    ),
    (
        Reason::PairHeld,
        Layer::Unit,
        0,
        "refused 21 by the unit: a pair is held already",
    ),
    (
        Reason::NothingHeld,
        Layer::Engine,
        0,
        "refused 22 by the engine: no pair is held",
    ),
    (
        Reason::RunNotOver,
        Layer::Unit,
        0,
        "refused 23 by the unit: the run is not over",
    ),
    (
        Reason::RunOver,
        Layer::Engine,
        0,
        "refused 24 by the engine: the run is over",
    ),
    (
        Reason::OrderAboveLargest,
        Layer::Engine,
        0,
        "refused 25 by the engine: the order is above the largest that the engine takes",
    ),
    (
        Reason::CommandNotTaken,
        Layer::Follower,
        7,
        "refused 26 by the follower at place 7: a follower does not take the command",
    ),
];

#[test]
fn refusals_in_words(rt: HostRuntime) -> Result<(), Fail> {
    for (reason, layer, place, words) in REFUSALS {
        let fault = Fault::new(reason, layer, place);
        assert_eq!(rt; format!(in rt.alloc(); "{fault}")?.as_str(), words);
    }
    Ok(())
}
