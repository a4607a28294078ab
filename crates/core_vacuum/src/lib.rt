//! When a session that has the right of maintenance may log a record by which dead documents leave the
//! trees of the index and their pages, and what such records leave as it is.
//!
//! `specs/` has what the session shows for each kind of record, of the log that it has seen and of the
//! pages that it holds; the laws here hold that the step is valid then, after every log that is allowed
//! to it. They take no part in a run. `valid_remove_items`, `valid_delete_post`, `valid_drop_page` and
//! `valid_free_slots` each test a record of one kind.
#![tactic(auto)]

mod deleting;
mod dropping;
mod entries;
mod freeing;
mod heads;
mod heaps;
mod keeping;
mod leaves;
mod removing;
mod staying;
mod steps;

pub use deleting::valid_delete_post;
pub use dropping::valid_drop_page;
pub use entries::entries_stand;
pub use freeing::{is_dead, valid_free_slots};
pub use heads::dead_heads_stay;
pub use heaps::heap_pages_stand;
pub use keeping::vacuum_keeps;
pub use leaves::leaves_stand;
pub use removing::valid_remove_items;
pub use staying::out_stays;
pub use steps::vacuum_steps_hold;
