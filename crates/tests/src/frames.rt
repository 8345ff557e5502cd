// Frames: the two worked examples, each refusal at its edges, every order, damaged bytes and buffers of every fit.
use crate::refused::check_refused;
use frame::hex;
use frame::hex::HexFault;
use frame::pair::{read_pair, write_pair};
use frame::reduction::Reduction;
use frame::result::write_result;
use rule::fault::Layer;
use rule::order::Order;
use rule::pair::{AdmittedPair, admitted};
use std::process::Abort;
use std::test::Fail;

const PAIR: [u8; 7] = [0, 5, 1, 0, 3, 5, 2];

const RESULT: [u8; 14] = [0, 12, 1, 0, 3, 0, 4, 0, 0, 1, 255, 3, 5, 2];

fn reduction() -> Result<Reduction, Fail> {
    Ok(Reduction {
        order: Order::try_from(3)?,
        count: 4,
        twos: 0,
        g: 1,
        u: -1,
        v: 3,
        numerator: 5,
        denominator: 2,
    })
}

// A pair in plain numbers: its order and its operands.
fn numbers(pair: AdmittedPair) -> (u16, i64, i64) {
    (pair.order().value(), pair.a(), pair.b())
}

// Each of these frames is refused, with its number and its place.
fn check_all_refused(rt: &impl Abort, frames: &[(&[u8], u8, usize)]) {
    for (bytes, number, place) in frames {
        check_refused(rt, read_pair(bytes), *number, Layer::Frame, *place);
    }
}

#[test]
fn the_worked_pair(rt: HostRuntime) -> Result<(), Fail> {
    let pair = admitted(3, 5, 2)?;
    assert_eq!(rt; read_pair(&PAIR).map(numbers), Ok((3, 5, 2)));
    let mut buffer = [9u8; 7];
    assert_eq!(rt; write_pair(pair, &mut buffer)?, 7);
    assert_eq!(rt; buffer, PAIR);
    Ok(())
}

#[test]
fn the_worked_result(rt: HostRuntime) -> Result<(), Fail> {
    let mut buffer = [9u8; 14];
    assert_eq!(rt; write_result(&reduction()?, &mut buffer)?, 14);
    assert_eq!(rt; buffer, RESULT);
    Ok(())
}

// Frames with a head that is refused, each with the number of the refusal and its place.
const HEADS: [(&[u8], u8, usize); 18] = [
    (&[], 1, 0),
    (&[0, 5, 1, 0], 1, 4),
    (&[0, 3, 1, 0, 3], 5, 5),
    (&[0, 4, 1, 0, 3, 5, 2], 2, 0),
    (&[0, 6, 1, 0, 3, 5, 2], 2, 0),
    (&[1, 5, 1, 0, 3, 5, 2], 2, 0),
    (&[0, 7, 1, 0, 3, 5, 2], 2, 0),
    (&[0, 4, 2, 0, 0, 5, 2], 2, 0),
    (&[0, 5, 0, 0, 3, 5, 2], 3, 2),
    (&[0, 5, 2, 0, 0, 5, 2], 3, 2),
    (&[0, 5, 1, 0, 0, 5, 2], 4, 3),
    (&[0, 5, 1, 0, 57, 5, 2], 4, 3),
    (&[0, 5, 1, 1, 3, 5, 2], 4, 3),
    (&[0, 4, 1, 0, 0, 5], 4, 3),
    (&[0, 4, 1, 0, 3, 5], 5, 5),
    (&[0, 6, 1, 0, 3, 5, 2, 0], 5, 5),
    (&[0, 5, 1, 0, 8, 5, 2], 5, 5),
    (&[0, 7, 1, 0, 7, 5, 2, 0, 0], 5, 5),
];

#[test]
fn a_head_is_refused(rt: HostRuntime) {
    check_all_refused(&rt, &HEADS);
}

// The same of operands. Order 3 has one byte for each operand, order 8 has two; the highest bit of the first is the sign.
const OPERANDS: [(&[u8], u8, usize); 11] = [
    (&[0, 5, 1, 0, 3, 8, 2], 6, 5),
    (&[0, 5, 1, 0, 3, 248, 2], 6, 5),
    (&[0, 5, 1, 0, 3, 128, 2], 6, 5),
    (&[0, 5, 1, 0, 3, 5, 8], 6, 6),
    (&[0, 5, 1, 0, 3, 5, 248], 6, 6),
    (&[0, 5, 1, 0, 3, 8, 0], 6, 5),
    (&[0, 5, 1, 0, 3, 8, 8], 6, 5),
    (&[0, 5, 1, 0, 3, 5, 0], 7, 6),
    (&[0, 7, 1, 0, 8, 1, 0, 255, 1], 6, 5),
    (&[0, 7, 1, 0, 8, 0, 255, 255, 0], 6, 7),
    (&[0, 7, 1, 0, 8, 0, 255, 0, 0], 7, 7),
];

#[test]
fn operands_are_refused(rt: HostRuntime) {
    assert_eq!(rt;
        read_pair(&[0, 5, 1, 0, 3, 7, 249]).map(numbers),
        Ok((3, 7, -7))
    );
    assert_eq!(rt;
        read_pair(&[0, 7, 1, 0, 8, 0, 255, 255, 1]).map(numbers),
        Ok((8, 255, -255))
    );
    check_all_refused(&rt, &OPERANDS);
}

#[test]
fn all_inputs_below_three_bytes(rt: HostRuntime) {
    check_refused(&rt, read_pair(&[]), 1, Layer::Frame, 0);
    for x in 0u8..=255 {
        check_refused(&rt, read_pair(&[x]), 1, Layer::Frame, 1);
        for y in 0u8..=255 {
            check_refused(&rt, read_pair(&[x, y]), 1, Layer::Frame, 2);
        }
    }
}

// The pair goes out in 5 + 2k bytes and comes back, and what was behind it stays.
fn check_round(rt: &impl Abort, order: u16, a: i64, b: i64) -> Result<(), Fail> {
    let pair = admitted(i64::from(order), a, b)?;
    let mut buffer = [170u8; 24];
    let length = write_pair(pair, &mut buffer)?;
    assert_eq!(rt; length, 7 + 2 * usize::from(order / 8));
    let (written, rest) = buffer
        .split_at_checked(length)
        .ok_or("longer than the buffer")?;
    assert_eq!(rt; read_pair(written).map(numbers), Ok((order, a, b)));
    assert!(rt; rest.iter().all(|byte| *byte == 170));
    Ok(())
}

#[test]
fn every_order_goes_out_and_comes_back(rt: HostRuntime) -> Result<(), Fail> {
    for n in 1u16..=56 {
        let most = (1i64 << n).wrapping_sub(1);
        let least = most.wrapping_neg();
        for (a, b) in [
            (most, least),
            (least, most),
            (0, 1),
            (-1, -1),
            (most / 3, least / 5 - 1),
        ] {
            check_round(&rt, n, a, b)?;
        }
    }
    Ok(())
}

// No change of one byte is read as the same pair.
#[test]
fn damage_is_seen(rt: HostRuntime) {
    for place in 0..PAIR.len() {
        for change in 1u8..=255 {
            let mut bytes = PAIR;
            bytes[place] ^= change;
            assert_ne!(rt; read_pair(&bytes).map(numbers), Ok((3, 5, 2)));
        }
    }
}

#[test]
fn short_buffers_stay_as_they_were(rt: HostRuntime) -> Result<(), Fail> {
    let mut six = [9u8; 6];
    check_refused(
        &rt,
        write_pair(admitted(3, 5, 2)?, &mut six),
        9,
        Layer::Unit,
        0,
    );
    assert_eq!(rt; six, [9u8; 6]);
    let mut thirteen = [9u8; 13];
    check_refused(
        &rt,
        write_result(&reduction()?, &mut thirteen),
        9,
        Layer::Unit,
        0,
    );
    assert_eq!(rt; thirteen, [9u8; 13]);
    Ok(())
}

#[test]
fn long_buffers_keep_their_rest(rt: HostRuntime) -> Result<(), Fail> {
    let mut buffer = [9u8; 16];
    assert_eq!(rt; write_result(&reduction()?, &mut buffer)?, 14);
    assert_eq!(rt; buffer, [0, 12, 1, 0, 3, 0, 4, 0, 0, 1, 255, 3, 5, 2, 9, 9]);
    Ok(())
}

#[test]
fn frames_in_hexadecimal_text(rt: HostRuntime) -> Result<(), Fail> {
    let text = hex::text_of(rt.alloc(), &RESULT)?;
    assert_eq!(rt; text.as_str(), "000c0100030004000001ff030502");
    for written in [
        "000c0100030004000001ff030502",
        "000C0100030004000001Ff030502",
    ] {
        let bytes = hex::bytes_of(rt.alloc(), written)?;
        assert_eq!(rt; bytes.as_slice(), RESULT.as_slice());
    }
    Ok(())
}

// What is no text of whole bytes is refused; the first pair of characters that is wrong says why.
#[test]
fn text_that_is_not_hexadecimal(rt: HostRuntime) {
    for (text, wrong) in [
        ("0", HexFault::OddLength),
        ("00051", HexFault::OddLength),
        ("0g", HexFault::NotADigit),
        ("g0", HexFault::NotADigit),
        ("00 1", HexFault::NotADigit),
        ("0005@0", HexFault::NotADigit),
        ("0G5", HexFault::NotADigit),
        ("/0:0", HexFault::NotADigit),
    ] {
        assert_eq!(rt; hex::bytes_of(rt.alloc(), text).err(), Some(wrong));
    }
}
