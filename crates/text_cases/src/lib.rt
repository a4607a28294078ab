//! Cases of texts and their meaning: rows that say what comes of them. One reader runs the rows of each kind, and puts
//! what comes of a row after an empty text, which is compared with the row's.
//!
//! Tests are in a crate of their own, since a crate with tests is proved twice.
#![tactic(auto)]

#[cfg(test)]
mod base_tests;
#[cfg(test)]
mod config_tests;
#[cfg(test)]
mod kinds;
#[cfg(test)]
mod laws;
#[cfg(test)]
mod match_tests;
#[cfg(test)]
mod parser_tests;
#[cfg(test)]
mod query_tests;
#[cfg(test)]
mod rows;
#[cfg(test)]
mod script_tests;
#[cfg(test)]
mod thesaurus_tests;
#[cfg(test)]
mod vector_tests;
#[cfg(test)]
mod word_tests;
