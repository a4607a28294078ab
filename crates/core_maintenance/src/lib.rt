//! When a session that has the right of maintenance may log a record that moves rows to the trees of
//! the index, and what such records leave as it is.
//!
//! The session shows facts of the log that it has seen and of the pages that it holds; others may have
//! logged since. `specs/` has what it shows for each kind of record; the functions here hold that the
//! step is valid then, after every log that is allowed to it. They take no part in a run.
#![tactic(auto)]

mod fresh;
mod keeping;
mod leading;
mod moving;
mod staying;
mod trees;

pub use fresh::fresh_rows_hold;
pub use keeping::{placing_keeps, shift_keeps};
pub use leading::ways_lead;
pub use moving::{added_items_are_main, moving_pages_serve, moving_steps_hold};
pub use staying::found_stays;
pub use trees::{tree_names_hold, tree_pages_serve, tree_steps_hold};
