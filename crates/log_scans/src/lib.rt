//! The model, a second reading of logs that shares no walk with the store: here what a search reads and finds.
//!
//! Walks of searches over a log, by plain slow loops over decoded pages: what was read at which moment, whether that
//! is a walk for a query, and what it finds.
//!
//! **Pins.** A pin is a snapshot, that is a number of first commits, and the log's length when it was taken, which
//! has these commits. A log keeps it where each record is valid also with these commits alone as those by which a
//! document is dead, and past the pin's length takes no page again that was deleted since.
//!
//! **Walks.** The moments of a walk are lengths of the log, which don't fall and begin at the pin's length or later,
//! each with a page, which is read as so many first records leave it. Which page comes next is said by a page that
//! was read, as it was read:
//!
//! - first the metapage, then its first pending page, and from each of these the right link up to 0, also from a page
//!   that is deleted by then, since it keeps its rows and its link;
//! - then, for each key of the query once and in key order, page 1 and from each page the child or, where the key is
//!   past its bounds, the right link, up to the key's leaf. A prefix goes on along the leaves as long as their high
//!   key begins with it. A query that a document without any of its keys may satisfy reads all leaves from the first
//!   on;
//! - after a leaf, for each entry that is sought and has a posting tree, its root, from an inner page its first
//!   child, and from a leaf or a deleted page its right link up to 0.
//!
//! **What is found.** A document is met where a row of it was read. Each item that was read is judged, a key under
//! which it was read being True, and an absent one False in order to leave it out. For a yes without its vector an
//! absent key is False in the rows and Maybe in the trees. A met document is judged by its rows alone, another one by
//! the trees. The document of the first row on the first pending page may have had rows before it: it is judged by
//! both, and for a yes an absent key is Maybe in both. An item is kept where some judging doesn't leave it out, and
//! has a yes where some judging says so.
//!
//! **A log that was left.** Of a legal log each document's keys are in one part of the index, all in linked rows or all
//! in the main part, after each record that moves items within it. A search over the pages that it leaves reads each
//! page as it is then.
//!
//! All is written from these rules and shares no code with the store.
#![tactic(auto)]

mod found;
mod query;
mod replay;
mod scan;
mod search;
mod sought;
mod words;

pub use found::{WalkResult, found_in, told_wrong};
pub use query::{Asked, Query, Tri};
pub use replay::{Moment, Pin, Read, Reading, Snapshot, read_left, read_moments};
pub use scan::{NoWalk, Posting, Scan, scan_left, scan_pages};
pub use search::{judge_log, search_left};
pub use sought::{Sought, all_sought};
pub use words::query_in;
