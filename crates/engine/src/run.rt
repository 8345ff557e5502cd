// A whole run of any engine, from a pair to the end where b is 0. The call is in run/calls.rt.
use crate::commands::Commands;
use rule::pair::AdmittedPair;

// The pair of a run, the commands that were told, and what it ended with.
#[derive(PartialEq, Eq, Debug, Drop)]
pub struct Run {
    pub pair: AdmittedPair,
    pub commands: Commands,
    pub twos: u16,
    pub gcd: u64,
}

mod calls;

pub use calls::run_to_end;
