//! The cleanup of the index: rows of the pending list move to the trees.
//!
//! A cleanup is a machine of small steps, each of which reads one page or logs one record. It reads pages
//! of whole documents, places their pairs key by key, in key order, and then shifts the pages, first to
//! last. Others may log between two steps; a page that has got rows meanwhile is read again before it is
//! shifted.
#![tactic(auto)]

mod cleanup;
mod first_page;
mod gathered;
mod laws;
mod listed;
mod stepping;

pub use cleanup::Cleanup;
pub use gathered::Gathered;
pub use laws::{batches_hold, pages_follow, rows_go};
