//! Thesaurus dictionaries, which replace phrases.
#![tactic(auto)]

mod laws;
mod line;
mod line_words;
mod matching;
mod rule;
mod thesaurus;
mod tree;
mod walk;
mod words;

pub use laws::{lines_have_one_reading, one_fits};
pub use thesaurus::{Replaced, Thesaurus};
pub use walk::Walk;
