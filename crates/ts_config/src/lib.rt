//! Dictionaries and configurations by name, and the lexemes that a text has by a configuration.
#![tactic(auto)]

mod config;
mod configs;
mod dictionaries;
mod error;
mod laws;
mod phrases;
mod placed;

pub use config::Config;
pub use configs::Configs;
pub use dictionaries::AnyDictionary;
pub use error::ConfigError;
pub use laws::{
    mapping_replaces_one, parts_are_one, phrases_are_whole, placed_are_one, positions_rise,
    simple_maps_all_but_blank, tokens_are_parts,
};
pub use placed::Placed;

/// How many types of tokens there are.
pub const TYPES: usize = 15;
