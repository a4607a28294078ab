//! The law over walks: a scan that reads the pages of the index at different moments of the log, as
//! records fall between its reads, leaves out no document of its snapshot that satisfies the query.
//!
//! `specs/` has the definitions: what a walk is, what it knows of an item, and what is kept. The
//! functions here hold what follows from them. They take no part in a run.
#![tactic(auto)]

mod laws;

pub use laws::{
    kept_items_lie, lists_stay_open, moments_hold, trees_stay_open, walks_end, ways_stay_open,
};
