// Euclid's division algorithm, which shares no code with the rule.

// The greatest common divisor of a and b by division with remainder.
pub fn euclid(a: i64, b: i64) -> u64 {
    let mut x = a.unsigned_abs();
    let mut y = b.unsigned_abs();
    // A `while`: each division ends or needs the next, and nothing is counted.
    while y != 0 {
        (x, y) = (y, x % y);
    }
    x
}
