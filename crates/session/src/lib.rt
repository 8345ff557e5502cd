#![tactic(auto)]

pub mod call;
pub mod perform;
pub mod reduce;
