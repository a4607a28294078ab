//! Cases of the device in memory, of the log, of pages in memory over their journal, of pages, records and item lists,
//! of the state of a log, of heads, new pages and snapshots, of pages of the entry tree and of posting trees, and of
//! lists and leaves without dead items, by their public calls.
//!
//! Cases are rows of text that one reader runs, for each kind of row, since a row costs nothing in proof and a
//! function much. Tests are in a crate of their own, since a crate with tests is proved twice.
#![tactic(auto)]

#[cfg(test)]
mod change_tests;
#[cfg(test)]
mod device_tests;
#[cfg(test)]
mod entry_rows;
#[cfg(test)]
mod entry_tests;
#[cfg(test)]
mod frames_tests;
#[cfg(test)]
mod heap_tests;
#[cfg(test)]
mod item_tests;
#[cfg(test)]
mod kinds;
#[cfg(test)]
mod list_tests;
#[cfg(test)]
mod log_tests;
#[cfg(test)]
mod page_rows;
#[cfg(test)]
mod page_tests;
#[cfg(test)]
mod pin_tests;
#[cfg(test)]
mod record_rows;
#[cfg(test)]
mod record_tests;
#[cfg(test)]
mod rows;
#[cfg(test)]
mod silent;
#[cfg(test)]
mod state_rows;
#[cfg(test)]
mod state_tests;
#[cfg(test)]
mod tree_tests;
