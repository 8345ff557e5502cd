#![tactic(auto)]

pub mod commands;
pub mod engine;
mod registers;
pub mod run;
pub mod word;
