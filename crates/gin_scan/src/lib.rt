//! A search by the index: it reads the pending list and then the tree of keys, judges each document by the
//! keys that it met, reads the heads of those alone that the judge does not leave out, and the vectors of
//! those that it can't decide.
//!
//! A scan is a machine of small steps. Each holds one page at most and none stays held, so others may log
//! between two of them.
#![tactic(auto)]

mod asks;
mod check;
mod found;
mod heads;
mod keys;
mod laws;
mod lexemes;
mod parts;
mod pending;
mod postings;
mod scan;
mod scan_core;
mod stage;

pub use check::{Check, TextCheck};
pub use found::Found;
pub use laws::scans_go_on;
pub use scan::Scan;
pub use scan_core::ScanCore;
