//! The vacuum of the index: items of dead documents leave it, and then their pages and their slots.
//!
//! `Finding` notes which items are dead, heap page by heap page; `Sweeping` takes them out of the trees;
//! `Freeing` deletes their chains and makes their slots free. Each is a machine of small steps, which read
//! one page or log one record, and others may log between two steps.
#![tactic(auto)]

mod asks;
mod deleting;
mod finding;
mod freeing;
mod logging;
mod sweeping;
mod unlinked;

pub use finding::{Finding, find_dead};
pub use freeing::{Freeing, free_slots};
pub use sweeping::{Sweeping, sweep};
pub use unlinked::without_rows;
