// The tests, the halving and the divisor of the rule on machine words, and the exchange of any two values.
ghost use Rattle.std.specs.Prelude.{◌≡◌};
ghost use Rattle.rule.specs.Divisor.{scaled};
ghost use Rattle.rule.specs.Exchanged.{exchanged};
ghost use Rattle.rule.specs.Whole.{odd, half, fourfold};

#[tactic(auto, unfolding(crate::specs::Whole::odd))]
pub fn is_odd(z: i64) -> bool
    ensures { result ≡ odd z }
{
    z % 2 != 0
}

#[tactic(auto, unfolding(crate::specs::Whole::fourfold))]
pub fn is_fourfold(z: i64) -> bool
    ensures { result ≡ fourfold z }
{
    z % 4 == 0
}

// Half of z, rounded down.
#[tactic(auto, unfolding(crate::specs::Whole::half))]
pub fn halved(z: i64) -> i64
    ensures { result ≡ half z }
{
    z >> 1
}

// |a| · 2^twos, if a word has room for it.
pub fn scaled(a: i64, twos: u16) -> Option<u64>
    ensures { result ≡ scaled a twos }
{
    let power = 1u64.checked_shl(u32::from(twos))?;
    a.unsigned_abs().checked_mul(power)
}

// Two of a kind, which change places where the mark is set.
pub fn exchanged<T>(exchange: bool, first: T, second: T) -> (T, T)
    ensures { result ≡ exchanged exchange first second }
{
    if exchange {
        (second, first)
    } else {
        (first, second)
    }
}
