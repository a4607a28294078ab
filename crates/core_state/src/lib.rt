//! What a log means: the pages that its records leave, the documents and their history, when a
//! record may follow a log, what stays true of every log, and what a session may conclude from the
//! part that it has seen.
//!
//! A log is a list of records, the newest first. `specs/` has the definitions, on which every proof
//! of the store is; the functions of `laws` hold what follows from them.
#![tactic(auto)]

mod answers;
mod calls;
mod freed;
mod heaps;
mod laws;
mod linking;
mod lives;
mod marking;
mod members;
mod names;
mod peaks;
mod placing;
mod running;
mod sessions;
mod settings;
mod shifting;
mod sizes;
mod splitting;
mod state;
mod table;
mod transactions;
mod tree_items;
mod tree_pages;
mod uses;
mod valid;

pub use answers::{Fate, PageUse};
pub use laws::{
    bullets_hold, documents_hold, history_is_one, keys_are_one, newest_may_go, pages_are_shown,
    pages_hold, records_keep, state_follows, steady_hold, valid_is_monotone,
};
pub use linking::{begin_with, valid_add_row, valid_link_pending, valid_put_pending};
pub use lives::{Life, Placed};
pub use marking::{head_in, valid_mark_deleted, valid_put_overflow};
pub use placing::{others_stay, valid_place_head};
pub use sessions::{logged_steps_hold, pending_steps_hold, pins_hold, steps_hold, views_hold};
pub use settings::Settings;
pub use shifting::valid_shift;
pub use splitting::valid_split;
pub use state::State;
pub use table::XID_BOUND;
pub use transactions::{Names, Transaction};
pub use tree_items::{valid_add_items, valid_add_postings};
pub use tree_pages::{valid_grow_root, valid_make_tree};
pub use valid::{valid_abort, valid_begin, valid_commit, valid_create};
