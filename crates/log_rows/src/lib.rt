//! The model, a second reading of logs that shares no walk with the store: here when a record may follow a log.
//!
//! When a record may follow a log: every condition of the rule of its kind, tested by plain walks over decoded pages.
#![tactic(auto)]

mod cuts;
mod heap_rows;
mod item_rows;
mod lists;
mod parts;
mod pending_rows;
mod rows;
mod shape_rows;
mod sizes;
mod slots;
mod step;
mod transaction_rows;
mod vacuum_rows;

pub use rows::{here, row};
pub use step::{Step, Terms, left_pages};
