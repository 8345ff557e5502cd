// The theorems of the rule, each as the contract of a function (docs/PROVED.md).
ghost use Rattle.rule.specs.Theorems.{WholeIsLawful, HalvingsAreExact, NeedIsBounded, NeedIsUnique, RunIsNarrow, DivisorIsGreatest};

// Whole numbers keep the laws of parity, halving, sums and size that the bound rests on.
#[tactic(auto, using(crate::proofs::Whole::whole_lawful))]
pub fn whole_numbers_are_lawful()
    ensures { WholeIsLawful }
{}

// Only even numbers are halved.
#[tactic(auto, using(crate::proofs::Whole::halvings_exact))]
pub fn halvings_are_exact()
    ensures { HalvingsAreExact }
{}

// The need exists and is at most 4n + 1.
#[tactic(auto, using(crate::proofs::Whole::need_bounded))]
pub fn need_is_bounded()
    ensures { NeedIsBounded }
{}

// There is no more than one need.
#[tactic(auto, using(crate::proofs::Fuel::need_unique))]
pub fn need_is_unique()
    ensures { NeedIsUnique }
{}

// Along a run of order n every number of the state stays within its width.
pub fn runs_are_narrow()
    ensures { RunIsNarrow }
{}

// At the end |a| times 2^twos is the greatest common divisor.
pub fn divisor_is_greatest()
    ensures { DivisorIsGreatest }
{}
