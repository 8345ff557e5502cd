// Tests of the unit and of what stands on it: every call in every state, every way of cutting a run, every order.
#![tactic(auto)]

#[cfg(test)]
mod bench;
#[cfg(test)]
mod buffers;
pub mod capped;
#[cfg(test)]
mod orders;
#[cfg(test)]
mod refusals;
#[cfg(test)]
mod scripts;
#[cfg(test)]
mod sessions;
#[cfg(test)]
mod streams;
#[cfg(test)]
mod tried;
#[cfg(test)]
mod works;
