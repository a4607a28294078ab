//! Queries of web texts: their items, and what they are made.
#![tactic(auto)]

mod items;
mod laws;
mod web;

pub use laws::{items_are_one, rows_are_one, web_answer_is_one};
pub use web::websearch_to_tsquery;
