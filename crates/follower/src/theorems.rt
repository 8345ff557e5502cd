// The theorems on followers, each as the contract of a function (docs/PROVED.md).
ghost use Rattle.follower.specs.Fraction.{FractionIsReduced};
ghost use Rattle.follower.specs.Marked.{MarkedPairs};
ghost use Rattle.follower.specs.Readout.{CofactorsAreRight};

// At the end of every run the cofactor follower reads cofactors of the greatest common divisor, small where a is not 0.
pub fn cofactors_are_right()
    ensures { CofactorsAreRight }
{}

// At the end of every run the fraction follower reads a/b in lowest terms, with a positive denominator.
pub fn fraction_is_reduced()
    ensures { FractionIsReduced }
{}

// The marked pairs: their commands, divisors, cofactors and fractions.
pub fn marked_pairs_hold()
    ensures { MarkedPairs }
{}
