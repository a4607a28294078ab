//! Pages of posting trees: an item is sought on one, a tree's first leaf is made, items are added to a leaf, a page is
//! split, a root grows, a parent takes the new page of a page that was split or loses a child, and items leave the
//! lists of a leaf.
//!
//! A posting tree is a B-tree of the items of one key. A leaf has an item list; an inner page has children, each with
//! the greatest item that may be below it.
#![tactic(auto)]

mod adding;
mod adopting;
mod finding;
mod growing;
mod laws;
mod pages;
mod removing;
mod splitting;
mod unlinking;

pub use adding::{Added, MOST_LIST_BYTES, add, leaf};
pub use adopting::adopt;
pub use finding::{Found, find};
pub use growing::grow;
pub use laws::{found_leads_down, full_pages_are_large, pages_may_be_logged};
pub use pages::{first_child, has_room, upper};
pub use removing::{left_leaf_may_be_logged, remove};
pub use splitting::split;
pub use unlinking::unlink;
