//! The rows of the pending list: a document's keys are packed into rows on pages of their own, or
//! come as one row on the list's last page.
//!
//! What a change leaves is what a record of its kind asks of the page; `laws` says so.
#![tactic(auto)]

mod adding;
mod laws;
mod packing;

pub use adding::add_row;
pub use laws::pages_may_be_logged;
pub use packing::rows;
