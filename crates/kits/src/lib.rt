#![tactic(auto)]

pub mod book;
pub mod choices;
pub mod filling;
pub mod label;
pub mod label_box;
pub mod members;
pub mod slot_number;
