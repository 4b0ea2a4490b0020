#![tactic(auto)]

pub mod matched;
