//! The store: its documents on heap and overflow pages, the log that keeps them, and what files open
//! to.
#![tactic(auto)]

mod asks;
mod changes;
mod cleaning;
mod commit_names;
mod db;
mod error;
mod gate;
mod indexing;
mod laws;
mod list_end;
mod maintaining;
mod opening;
mod pages;
mod reading;
mod transaction;
mod vacuuming;

pub use buffer_frames::{OpenFault, Pass, no_store_is_none, opens_to_one};
pub use commit_names::CommitNames;
pub use core_state::Settings;
pub use db::Db;
pub use error::{DbError, Unopened};
pub use gate::{Gate, NoGate};
pub use laws::{histories_are_lawful, limits, one_list};
pub use opening::WIDEST;
pub use page_types::Name;
