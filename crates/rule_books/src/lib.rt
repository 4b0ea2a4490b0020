#![tactic(auto)]

mod listed;
mod narrowing;
pub mod table_book;
