#![tactic(auto)]

pub mod cut;
mod head;
pub mod hex;
mod number;
pub mod pair;
pub mod reduction;
pub mod result;
pub mod theorems;
mod write;
