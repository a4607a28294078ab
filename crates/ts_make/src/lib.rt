//! Vectors and queries that are made of texts, by a configuration.
#![tactic(auto)]

mod joining;
mod laws;
mod maker;
mod queries;
mod vector;

pub use laws::{
    groups_are_near, groups_are_one, groups_keep_lexemes, join_answer_is_one, query_answer_is_one,
    removal_is_sound, removal_keeps_the_rest, sketches_have_no_fewer, vector_answer_is_one,
    whole_trees_stay,
};
pub use maker::{Link, QueryMaker};
pub use queries::{MadeQuery, phraseto_tsquery, plainto_tsquery, to_tsquery};
pub use vector::{MadeVector, to_tsvector};
