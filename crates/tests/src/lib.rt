// Tests of every layer on many pairs, against a Euclid of their own.
#![tactic(auto)]

#[cfg(test)]
mod admission;
#[cfg(test)]
mod cuts;
#[cfg(test)]
mod engines;
pub mod euclid;
#[cfg(test)]
mod followers;
#[cfg(test)]
mod frames;
#[cfg(test)]
mod reductions;
#[cfg(test)]
mod refused;
pub mod relay;
#[cfg(test)]
mod runs;
pub mod sequence;
