#![tactic(auto)]

pub mod checksum;
pub mod lent;
pub mod numbers;
pub mod shown;
