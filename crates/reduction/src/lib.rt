#![tactic(auto)]

pub mod readout;
pub mod reduce;
