//! Porter's stemmer of 1980 for English words.
#![tactic(auto)]

mod dictionary;
mod laws;
mod rule;
mod rules;
mod shape;
mod steps;
mod tables;

pub use dictionary::Porter;
pub use laws::{
    longest_is_longest, porter_knows_all, stem_is_no_longer, stem_is_small, stem_is_some,
    stems_are_worked, tables_are_apart,
};
pub use steps::stem;
