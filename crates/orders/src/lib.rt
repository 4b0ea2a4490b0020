#![tactic(auto)]

pub mod order;
pub mod reading;
