//! Items put under their key in the index: a machine of small steps, each of which reads one page or logs
//! one record.
//!
//! The way for the key goes down the entry tree from page 1, one page held at a time. Its leaf has the key's
//! list, or names the key's posting tree; a list that would pass 1000 bytes becomes one. In a posting tree
//! the way for the first item that is left goes down from the root, and its leaf gets as many of the items as
//! belong and fit there. Where a leaf has no room for the items the way begins again, and makes room: an inner
//! page without room for a child more is split before its child is read, and a full root grows first; after
//! each such record the way begins again at the root of the tree. Nothing is kept of a page between two steps
//! but its number, so others may log between them.
#![tactic(auto)]

mod asks;
mod error;
mod growing;
mod holding;
mod logging;
mod placing;
mod posting_splits;
mod postings;
mod reading;
mod rooting;
mod sought;
mod splitting;

pub use error::PlaceError;
pub use holding::{ask, hold_new, hold_page, hold_seen};
pub use logging::{log_two, one_step, release, two_step};
pub use placing::{Placing, place};
