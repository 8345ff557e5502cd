// Numbers as bytes, the most significant byte first; negative ones in two's complement.
ghost use Rattle.std.specs.Prelude.{◌≡◌, ◌^◌, ◌≤◌, length, pos, neg_ℤ, ◌≤ℤ◌, ◌<ℤ◌};
ghost use Rattle.std.specs.Int.Signed.{shr_z};
ghost use Rattle.frame.specs.Numbers.{appended, low_byte, sign_byte, signed_bytes, signed_value};

// A first byte, of which the highest bit is the sign.
fn sign_byte(x: u8) -> i64
    ensures { result ≡ sign_byte x }
{
    i64::from(x.cast_signed())
}

// A number with one byte more after its own.
fn appended(z: i64, x: u8) -> i64
    requires { (neg_ℤ (pos (2 ^ 55)) ≤ℤ z) × (z <ℤ pos (2 ^ 55)) }
    ensures { result ≡ appended z x }
{
    z * 256 + i64::from(x)
}

// The number that at most 8 bytes stand for.
pub fn signed(bytes: &[u8]) -> i64
    requires { length bytes.now ≤ 8 }
    ensures { result ≡ signed_value bytes.now }
{
    let [first, rest @ ..] = bytes else {
        return 0;
    };
    // A fold was tried: that each step keeps the range that the next one asks for found no proof.
    let mut value = sign_byte(*first);
    for x in rest {
        value = appended(value, *x);
    }
    value
}

// What a number leaves when divided by 256.
fn low_byte(z: i64) -> u8
    ensures { result ≡ low_byte z }
{
    z.rem_euclid(256) as u8
}

// A number without its low byte.
fn without_low_byte(z: i64) -> i64
    ensures { result ≡ shr_z z 256 }
{
    z >> 8
}

// Writes a number into as many bytes as there are, from the last to the first.
pub fn put_signed(part: &mut [u8], z: i64)
    ensures { part.new ≡ signed_bytes (length part.old) z }
{
    let mut rest = z;
    for i in (0..part.len()).rev() {
        part[i] = low_byte(rest);
        rest = without_low_byte(rest);
    }
}
