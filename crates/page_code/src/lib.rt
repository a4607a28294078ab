//! Pages of a store as bytes: the one encoding of each, and the page that bytes encode.
//!
//! `page_types` says what an encoding is. Here are its reader and its writer, with the place of the first fault of
//! bytes that are no page.
#![tactic(auto)]

mod entries;
mod error;
mod fields;
mod form;
mod heap;
mod items;
mod laws;
mod pages;
mod pending;
mod postings;
mod writing;

pub use error::PageError;
pub use laws::encodings_are_read;
pub use pages::decode_page;
pub use writing::{encode_page, page_image};
