//! Documents on heap pages: a head is put on a page, marked as deleted, freed and read, and loses the
//! pages of its chains.
//!
//! What a change leaves is what a record of its kind asks of the page; `laws` says that such a step
//! may be logged.
#![tactic(auto)]

mod changing;
mod heads;
mod laws;
mod leaving;
mod placing;

pub use changing::{free, mark};
pub use heads::head;
pub use laws::pages_may_be_logged;
pub use leaving::{Chain, drop_page, free_items, slots_are_heads};
pub use placing::place;
