#![tactic(auto)]

pub mod unit;
