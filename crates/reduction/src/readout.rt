// What an engine and the followers give at the end of the run of a pair.
ghost use Rattle.std.specs.Prelude.{◌≡◌, ℕ};
ghost use Rattle.reduction.specs.Followers.{first_tables, next_tables, tables_of};
ghost use Rattle.reduction.specs.Results.{Along, ReadsOut, fitting};

use engine::engine::Engine;
use follower::cofactor::{Cofactor, Cofactors};
use follower::fraction::{Fraction, Ratio};
use follower::pair::Pair;
use frame::reduction::Reduction;
use rule::order::Order;
use rule::pair::AdmittedPair;
use rule::words::scaled;

// The followers of a reduction.
pub type Followers = Pair<Cofactor, Fraction>;

// Whether each number fits the bytes that the order gives it.
fn fit(order: Order, g: u64, cofactors: Cofactors, ratio: Ratio) -> bool
    ensures { result ≡ fitting order.value g cofactors ratio }
{
    let limit = 1u64 << order.value();
    let sizes = [
        g,
        cofactors.u.unsigned_abs(),
        cofactors.v.unsigned_abs(),
        ratio.numerator.unsigned_abs(),
        ratio.denominator.unsigned_abs(),
    ];
    sizes.iter().all(|size| *size < limit)
}

// The result of a pair, if the engine and the followers have come to the end of its run.
pub fn read_out<E: Engine>(
    pair: AdmittedPair,
    engine: &E,
    followers: &Followers,
) -> Option<Reduction>
    ensures { (k : ℕ) → Along first_tables next_tables pair k (E.meaning engine.now) (tables_of followers.now) → ReadsOut pair k result }
{
    if !engine.is_over() {
        return None;
    }
    let a = engine.a();
    let twos = engine.twos();
    let g = scaled(a, twos)?;
    let cofactors = followers.first.cofactors(a)?;
    let ratio = followers.second.read_out()?;
    if !fit(pair.order(), g, cofactors, ratio) {
        return None;
    }
    Some(Reduction {
        order: pair.order(),
        count: engine.count(),
        twos,
        g,
        u: cofactors.u,
        v: cofactors.v,
        numerator: ratio.numerator,
        denominator: ratio.denominator,
    })
}
