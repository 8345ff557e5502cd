#![tactic(auto)]

pub mod bitwise;
mod passage;
