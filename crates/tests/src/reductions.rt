// Whole reductions: the divisor, the cofactors with their bounds, and the fraction, against Euclid.
use crate::euclid::euclid;
use crate::sequence::Sequence;
use engine::word::WordEngine;
use frame::reduction::Reduction;
use reduction::reduce::reduce;
use rule::fault::Fault;
use rule::order::Order;
use rule::pair::{AdmittedPair, admitted};
use std::process::Abort;
use std::test::Fail;

// The reduction of a pair on a word engine.
fn reduced(pair: AdmittedPair) -> Result<Reduction, Fault> {
    let (_, reduction) = reduce(&mut WordEngine::new(), pair)?;
    Ok(reduction)
}

// Everything that the reduction of the pair of these numbers promises, in wide numbers and by Euclid's division algorithm.
fn check_reduction(rt: &impl Abort, order: i64, a: i64, b: i64) -> Result<(), Fail> {
    let pair = admitted(order, a, b)?;
    assert_eq!(rt;
        (i64::from(pair.order().value()), pair.a(), pair.b()),
        (order, a, b)
    );
    let r = reduced(pair)?;
    assert_eq!(rt; r.g, euclid(a, b));
    let (a, b) = (i128::from(a), i128::from(b));
    let (u, v) = (i128::from(r.u), i128::from(r.v));
    assert_eq!(rt;
        u.wrapping_mul(a).wrapping_add(v.wrapping_mul(b)),
        i128::from(r.g)
    );
    if a != 0 {
        assert!(rt; u.unsigned_abs().wrapping_mul(2) <= b.unsigned_abs());
        assert!(rt; v.unsigned_abs().wrapping_mul(2) <= a.unsigned_abs().wrapping_add(1));
    }
    let (p, q) = (i128::from(r.numerator), i128::from(r.denominator));
    assert!(rt; q > 0);
    assert_eq!(rt; p.wrapping_mul(b), q.wrapping_mul(a));
    assert_eq!(rt; euclid(r.numerator, r.denominator), 1);
    Ok(())
}

// The same of both operands in either place and with either sign, where the second is not 0.
fn check_all_ways(rt: &impl Abort, order: i64, a: i64, b: i64) -> Result<(), Fail> {
    let minus_a = a.wrapping_neg();
    let minus_b = b.wrapping_neg();
    for (x, y) in [(a, b), (a, minus_b), (minus_a, b), (minus_a, minus_b)] {
        if y != 0 {
            check_reduction(rt, order, x, y)?;
        }
        if x != 0 {
            check_reduction(rt, order, y, x)?;
        }
    }
    Ok(())
}

// Every pair of order 5, and so every parity, sign, zero and equality.
#[test]
fn every_pair_of_order_five(rt: HostRuntime) -> Result<(), Fail> {
    for a in 0i64..32 {
        for b in 0i64..32 {
            check_all_ways(&rt, 5, a, b)?;
        }
    }
    Ok(())
}

// Operands at the edges of every order: 0, 1, and next to a power of two or at it.
#[test]
fn edges_of_every_order(rt: HostRuntime) -> Result<(), Fail> {
    for n in 1u8..=56 {
        let top = 1i64 << n;
        let most = top.wrapping_sub(1);
        for a in [0, 1, most / 2, top / 2, most.wrapping_sub(1), most] {
            for b in [1, top / 2, most.wrapping_sub(1), most] {
                check_all_ways(&rt, i64::from(n), a, b)?;
            }
        }
    }
    Ok(())
}

#[test]
fn published_example(rt: HostRuntime) -> Result<(), Fail> {
    check_all_ways(&rt, 21, 1759291, 1349639)
}

// Powers of two against each other and against themselves.
#[test]
fn powers_of_two(rt: HostRuntime) -> Result<(), Fail> {
    for i in 0u8..56 {
        for j in 0u8..=i {
            check_all_ways(&rt, 56, 1i64 << i, 1i64 << j)?;
        }
    }
    Ok(())
}

// Forty pairs of each order from a fixed sequence, with a common factor put into every second one.
#[test]
fn scattered_pairs_of_every_order(rt: HostRuntime) -> Result<(), Fail> {
    let mut sequence = Sequence::new();
    for n in 1i64..=56 {
        let order = Order::try_from(n)?;
        for _ in 0u8..20 {
            for common in [1, 30] {
                let a = (sequence.operand(order) / common).wrapping_mul(common);
                let b = (sequence.operand(order) / common).wrapping_mul(common);
                check_all_ways(&rt, n, a, b)?;
            }
        }
    }
    Ok(())
}

// The marked pairs: order, a, b, commands, g, u, v, numerator, denominator.
const MARKED: [(i64, i64, i64, u16, u64, i64, i64, i64, i64); 11] = [
    (1, 1, 1, 1, 1, 0, 1, 1, 1),
    (1, 0, -1, 1, 1, 0, -1, 0, 1),
    (2, 1, 3, 5, 1, 1, 0, 1, 3),
    (2, 3, -3, 1, 3, 0, -1, -1, 1),
    (2, 1, -2, 2, 1, 1, 0, -1, 2),
    (2, 3, 2, 4, 1, 1, -1, 3, 2),
    (3, 5, 2, 4, 1, -1, 3, 5, 2),
    (3, 5, 4, 5, 1, 1, -1, 5, 4),
    (3, 0, 6, 2, 6, 0, 1, 0, 1),
    (3, -4, 6, 5, 2, 1, 1, -2, 3),
    (5, 12, 18, 5, 6, -1, 1, 2, 3),
];

#[test]
fn marked_pairs(rt: HostRuntime) -> Result<(), Fail> {
    for (order, a, b, count, g, u, v, numerator, denominator) in MARKED {
        let r = reduced(admitted(order, a, b)?)?;
        assert_eq!(rt;
            (r.count, r.g, r.u, r.v, r.numerator, r.denominator),
            (count, g, u, v, numerator, denominator)
        );
    }
    Ok(())
}
