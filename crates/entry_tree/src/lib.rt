//! Pages of the entry tree: a key is sought on one, items are added under it, an entry leads to a
//! posting tree, a page is split, a root grows, and a parent takes the new page of a page that was
//! split.
//!
//! The entry tree is a B-tree of keys. A leaf has entries, each a key with its items; an inner page
//! has children, each with the greatest key that may be below it.
#![tactic(auto)]

mod adding;
mod adopting;
mod finding;
mod growing;
mod laws;
mod pages;
mod rooting;
mod searching;
mod splitting;

pub use adding::{Added, add};
pub use adopting::adopt;
pub use finding::{Found, find};
pub use growing::grow;
pub use laws::{found_leads_down, pages_may_be_logged};
pub use pages::{first_child, has_room, upper};
pub use rooting::root_at;
pub use splitting::split;
