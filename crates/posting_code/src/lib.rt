//! Item lists: rising items, written and read.
//!
//! A list is the differences of the items, the first from 0, each as a varbyte: seven bits at a
//! time, the low ones first, the high bit set where more follow, in the fewest bytes. An empty list
//! has no bytes.
#![tactic(auto)]

mod dividing;
mod error;
mod items;
mod merging;
mod removing;
mod searching;
mod walking;
mod writing;

pub use dividing::{Halves, Keep, cut};
pub use error::ListError;
pub use items::Items;
pub use merging::{fitting, lacks, merge};
pub use removing::{ItemSet, without};
pub use writing::encode_items;
