#![tactic(auto)]

pub mod argument;
pub mod fault;
pub mod line;
pub mod parse;
pub mod report;
pub mod verb;
mod word;
