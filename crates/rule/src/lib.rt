#![tactic(auto)]

pub mod command;
pub mod fault;
pub mod order;
pub mod pair;
pub mod theorems;
pub mod words;
