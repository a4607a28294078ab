//! Queries: their values, their texts, and what joins them.
#![tactic(auto)]

mod builder;
mod error;
mod laws;
mod parser;
mod print;
mod query;
mod reader;

pub use builder::QueryBuilder;
pub use error::QueryError;
pub use laws::{
    distance_is_decimal, fault_has_one_place, fault_is_outside, one_answer, one_value, prints_back,
};
pub use query::{Node, Operand, TsQuery};

/// The greatest distance of a phrase operator.
pub const GREATEST_DISTANCE: u16 = 16384;

/// What stands for each distance above the greatest.
const PAST_DISTANCE: u16 = 16385;

/// A query has fewer nodes than this.
pub const NODE_LIMIT: usize = 32768;
