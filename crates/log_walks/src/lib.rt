//! The model, a second reading of logs that shares no walk with the store: here what a log file says.
//!
//! What a log file says, by plain slow walks: its records, the pages that they leave, transactions, documents and the
//! index.
//!
//! All is written from the formats and shares no code with the store, which it is compared with. A page is decoded into
//! lists that can be compared and changed.
#![tactic(auto)]

mod documents;
mod fault;
mod index;
mod ledger;
mod log;
mod plain;
mod showing;
mod store;
mod vector;

pub use documents::{Doc, head_at, head_of, item_at, whole_keys};
pub use fault::{Fault, Rules, must, need};
pub use index::{
    Line, META, ROOT, all_in_main, are_pending, first_pending, has_no_pair, has_row, has_rows_from,
    is_indexed, line_from, page_for_item, page_for_key, root_of,
};
pub use ledger::{Fate, Ledger, Transaction};
pub use log::{LogError, read_log};
pub use plain::{
    KeyLeaf, PlainBody, PlainChild, PlainEntry, PlainHead, PlainPage, PlainPostings, PlainRow,
    PostLeaf, entries_in, key_leaf_in, post_leaf_in, rows_in, slots_in,
};
pub use store::{LeftBytes, LeftPage, Store, left_page, page_in};
