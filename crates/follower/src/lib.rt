#![tactic(auto)]

pub mod cofactor;
mod entries;
pub mod follower;
pub mod fraction;
mod kept;
mod modulus;
pub mod pair;
mod row;
mod signed;
pub mod table;
pub mod theorems;
