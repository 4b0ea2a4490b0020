#![tactic(auto)]

mod calls;
pub mod cells;
mod checks;
mod lines;
pub mod model;
mod reading;
mod room;
pub mod slots;
mod storing;
mod writing;

pub use calls::{check, read, write};
pub use cells::is_lawful;
