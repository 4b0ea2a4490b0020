#![tactic(auto)]

mod cutting;
pub mod fault;
pub mod natural;
pub mod number;
pub mod numbers;
pub mod reader;
pub mod text_line;
pub mod word;
