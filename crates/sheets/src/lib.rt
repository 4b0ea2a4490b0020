#![tactic(auto)]

pub mod refusal;
mod rule_set;
pub mod search;
pub mod sheet;
pub mod sheet_copy;
mod sheet_state;
pub mod slip;
