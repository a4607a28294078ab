//! Synonym dictionaries, which replace one word by one.
#![tactic(auto)]

mod laws;
mod line;
mod synonym;

pub use laws::lines_have_one_reading;
pub use synonym::Synonym;
