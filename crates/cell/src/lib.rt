#![tactic(auto)]

pub mod cell;
pub mod link;
pub mod run;
pub mod theorems;
