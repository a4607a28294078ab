//! What a scan notes of the index, and what it keeps of it: the items that were read on one side of the index, each
//! under the keys that are asked which fit, put in order, and judged by these keys.
//!
//! It reads no page itself: it is handed the rows and the entries of pages as they lie.
#![tactic(auto)]

mod entries;
mod fitting;
mod hits;
mod judged;
mod leaves;
mod marks;
mod near;
mod order;

pub use entries::TreeRoot;
pub use hits::Hits;
pub use judged::judge_met;
pub use leaves::{beyond, toward};
pub use order::{in_order, key_at};
