//! What a query means: whether a vector satisfies it, what can be said of it from less, and its keys in an index.
#![tactic(auto)]

mod bit_sets;
mod class;
mod encoded;
mod judging;
mod keys;
mod laws;
mod layout;
mod matching;
mod pass;
mod phrase;
mod ranges;
mod seen;
mod stack;
mod work;

pub use class::{TextJudge, text_class};
pub use judging::judge;
pub use keys::{query_keys, vector_keys};
pub use laws::{candidates_suffice, judges_well, needed_have};
pub use matching::{matches, matches_encoded};
pub use work::MatchWork;
